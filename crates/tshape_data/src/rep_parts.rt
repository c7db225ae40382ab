//! Representations from their numbers and decimals.
ghost use Rattle.std.specs.Prelude.{◌≡◌, []};
ghost use Rattle.tshape_data.specs.Columns.{IsPolygonal, edge_columns, edge_texts as text_count, point_columns};
ghost use Rattle.tshape_data.specs.Columns.{second_texts as second_count};
ghost use Rattle.tshape_data.specs.ColumnsLeft.{HasNumbers, numbers_of};
ghost use Rattle.tshape_data.specs.Reps.{edge_rep as edge_rep_of, point_rep as point_rep_of};

use crate::columns_due::ColumnsDue;
use crate::forms::{EdgeForm, PointForm};
use crate::reps::{EdgeRep, PointRep};
use brep_tokens::Decimals;

/// How many parameters stand after the form's number in a vertex's representation.
pub fn second_texts(form: PointForm) -> u64
    ensures { result ≡ second_count form }
{
    match form {
        PointForm::OnSurface => 1,
        _ => 0,
    }
}

/// How many decimals an edge's representation has.
pub fn edge_texts(version: u8, form: EdgeForm) -> u64
    ensures { result ≡ text_count version form }
{
    match form {
        EdgeForm::Curve => 2,
        EdgeForm::Curve2 | EdgeForm::Seam => if version == 2 { 6 } else { 2 },
        _ => 0,
    }
}

/// The representation of a vertex.
pub fn point_rep(form: PointForm, columns: &ColumnsDue, texts: Decimals) -> PointRep
    requires { HasNumbers (point_columns form) columns.now }
    ensures { result ≡ point_rep_of form (numbers_of columns.now) texts }
{
    let numbers = columns.numbers;
    match form {
        PointForm::OnCurve => PointRep::OnCurve {
            texts,
            curve: numbers[0],
            location: numbers[1],
        },
        PointForm::OnCurve2 => PointRep::OnCurve2 {
            texts,
            curve2: numbers[0],
            surface: numbers[1],
            location: numbers[2],
        },
        PointForm::OnSurface => PointRep::OnSurface {
            texts,
            surface: numbers[0],
            location: numbers[1],
        },
    }
}

/// The representation of an edge.
pub fn edge_rep(form: EdgeForm, columns: &ColumnsDue, texts: Decimals) -> EdgeRep
    requires { HasNumbers (edge_columns form) columns.now }
    ensures { result ≡ edge_rep_of form (numbers_of columns.now) texts }
{
    let numbers = columns.numbers;
    match form {
        EdgeForm::Curve => EdgeRep::Curve {
            curve: numbers[0],
            location: numbers[1],
            texts,
        },
        EdgeForm::Curve2 => EdgeRep::Curve2 {
            curve2: numbers[0],
            surface: numbers[1],
            location: numbers[2],
            texts,
        },
        EdgeForm::Seam => EdgeRep::Seam {
            first_curve2: numbers[0],
            second_curve2: numbers[1],
            continuity: numbers[2] as u8,
            surface: numbers[3],
            location: numbers[4],
            texts,
        },
        EdgeForm::Joint => EdgeRep::Joint {
            continuity: numbers[0] as u8,
            first_surface: numbers[1],
            first_location: numbers[2],
            second_surface: numbers[3],
            second_location: numbers[4],
        },
        EdgeForm::Polygon | EdgeForm::PolygonOn | EdgeForm::SeamPolygons => {
            polygonal_rep(form, columns)
        }
    }
}

/// A polygon, or polygons on a triangulation: without decimals.
fn polygonal_rep(form: EdgeForm, columns: &ColumnsDue) -> EdgeRep
    requires polygonal { IsPolygonal form }
    requires numbers { HasNumbers (edge_columns form) columns.now }
    ensures { result ≡ edge_rep_of form (numbers_of columns.now) [] }
{
    let numbers = columns.numbers;
    match form {
        EdgeForm::Polygon => EdgeRep::Polygon {
            polygon: numbers[0],
            location: numbers[1],
        },
        EdgeForm::PolygonOn => EdgeRep::PolygonOn {
            polygon_on: numbers[0],
            mesh: numbers[1],
            location: numbers[2],
        },
        EdgeForm::SeamPolygons => EdgeRep::SeamPolygons {
            first_polygon_on: numbers[0],
            second_polygon_on: numbers[1],
            mesh: numbers[2],
            location: numbers[3],
        },
        _ => unreachable!(),
    }
}
