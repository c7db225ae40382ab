//! The lines of a vertex's representations.
ghost use Rattle.std.specs.List.{flat_map};
ghost use Rattle.std.specs.Prelude.{◌<◌, ◌∷◌, ◌++◌, All, [], length, slice_index_or};
ghost use Rattle.written_heads.specs.Words.{IsWritablePoint, written_point, written_words};
ghost use Rattle.written_locations.specs.Added.{IsNumbering};

use crate::fields::{push_decimal, push_located, push_text};
use brep_tokens::Decimals;
use byte_sink::{TakesBytes, push_byte};
use tshape_data::PointRep;
use written_locations::WrittenLocations;

/// The first parameter, a space and the digit of a form.
fn push_form<B: TakesBytes>(text: &mut B, texts: &Decimals, digit: u8)
    requires { 0 < length texts.now }
    ensures { B.gives text.old (slice_index_or texts.now 0 [] ++ 32 ∷ digit ∷ []) text.new }
{
    push_decimal(text, texts, 0, b' ');
    push_byte(text, digit);
}

/// The words of a representation: its parameter, the digit of its form, perhaps its second parameter, and its numbers.
fn push_words<B: TakesBytes>(text: &mut B, point: &PointRep, locations: &WrittenLocations<'_>)
    requires numbering { IsNumbering locations.now }
    requires writable { IsWritablePoint locations.now point.now }
    ensures { B.gives text.old (written_words locations.now point.now) text.new }
{
    match point {
        PointRep::OnCurve {
            texts,
            curve,
            location,
        } => {
            push_form(text, texts, b'1');
            push_located(text, &[*curve], *location, locations)
        }
        PointRep::OnCurve2 {
            texts,
            curve2,
            surface,
            location,
        } => {
            push_form(text, texts, b'2');
            push_located(text, &[*curve2, *surface], *location, locations)
        }
        PointRep::OnSurface {
            texts,
            surface,
            location,
        } => {
            push_form(text, texts, b'3');
            push_byte(text, b' ');
            push_text(text, texts, 1);
            push_located(text, &[*surface], *location, locations)
        }
    }
}

/// The lines of a vertex's representations.
pub(crate) fn push_points<B: TakesBytes>(
    text: &mut B,
    points: &[PointRep],
    locations: &WrittenLocations<'_>,
)
    requires numbering { IsNumbering locations.now }
    requires writable { All (IsWritablePoint locations.now) points.now }
    ensures { B.gives text.old (flat_map (written_point locations.now) points.now) text.new }
{
    for point in points {
        push_words(text, point, locations);
        push_byte(text, b'\n');
    }
}
