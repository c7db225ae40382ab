//! The number of a representation's form, or the end of the representations, that is due.
ghost use Rattle.std.specs.Prelude.{◌≡◌, ◌<◌, ℕ, IfOk, IfSome, List, Option};
ghost use Rattle.entry_readers.specs.Takes.{Answers};
ghost use Rattle.tshape_data.specs.Columns.{edge_form as form_of_edge_number, point_form as form_of_point_number};
ghost use Rattle.tshape_data.specs.RepReading.{edge_form_at, point_form_at, with_room};
ghost use Rattle.tshape_data.specs.RepsLeft.{AnswersForm};

use crate::forms::{EdgeForm, PointForm};
use brep_tokens::{ReadCode, ReadFault, Token, TokenText};
use entry_readers::{fault_at, number_due};

/// How many representations the records of a file may have together.
pub const MOST_REPS: u64 = 8_388_608;

/// The form of a vertex's representation that has this number.
fn point_form(n: u64) -> Option<PointForm>
    ensures { result ≡ form_of_point_number n }
{
    match n {
        1 => Some(PointForm::OnCurve),
        2 => Some(PointForm::OnCurve2),
        3 => Some(PointForm::OnSurface),
        _ => None,
    }
}

/// The form of an edge's representation that has this number.
fn edge_form(n: u64) -> Option<EdgeForm>
    ensures { result ≡ form_of_edge_number n }
{
    match n {
        1 => Some(EdgeForm::Curve),
        2 => Some(EdgeForm::Curve2),
        3 => Some(EdgeForm::Seam),
        4 => Some(EdgeForm::Joint),
        5 => Some(EdgeForm::Polygon),
        6 => Some(EdgeForm::PolygonOn),
        7 => Some(EdgeForm::SeamPolygons),
        _ => None,
    }
}

/// The form that a number has, where there is room for so many representations more.
#[tactic(auto, using(crate::proofs::RepLoops::room_open, crate::proofs::RepLoops::room_full))]
fn in_room<F: Copy>(room: u64, n: u64, form: Option<F>, t: &Token) -> Result<Option<F>, ReadFault>
    ensures answer { AnswersForm (with_room room t.now n form) result }
    ensures open { IfOk result (λ f. 0 < room) }
{
    match form {
        None => Err(fault_at(ReadCode::UnknownCode, n, 0, t)),
        Some(form) => {
            if room == 0 {
                Err(fault_at(ReadCode::TooMany, MOST_REPS + 1, MOST_REPS, t))
            } else {
                Ok(Some(form))
            }
        }
    }
}

/// The form of an edge's representation is due, or the end of them.
pub fn edge_form_due(room: u64, t: &Token) -> Result<Option<EdgeForm>, ReadFault>
    ensures answer { Answers (edge_form_at room) t.now result }
    ensures open { IfOk result (λ form. IfSome form (λ f. 0 < room)) }
{
    let n = number_due(t)?;
    if n == 0 {
        Ok(None)
    } else {
        in_room(room, n, edge_form(n), t)
    }
}

/// The form of a vertex's representation is due after this parameter, or the end of them.
pub fn point_form_due(
    param: &TokenText,
    room: u64,
    t: &Token,
) -> Result<Option<PointForm>, ReadFault>
    ensures answer { Answers (point_form_at param.now room) t.now result }
    ensures open { IfOk result (λ form. IfSome form (λ f. 0 < room)) }
{
    let n = number_due(t)?;
    if n != 0 {
        in_room(room, n, point_form(n), t)
    } else if param.bytes() == b"0".as_slice() {
        Ok(None)
    } else {
        Err(fault_at(ReadCode::UnknownCode, 0, 0, t))
    }
}
