//! The lines of an edge's representations.
ghost use Rattle.brep_tokens.specs.Written.{line_text};
ghost use Rattle.std.specs.Fmt.{decimal};
ghost use Rattle.std.specs.List.{flat_map};
ghost use Rattle.std.specs.Prelude.{◌≡◌, ◌≤◌, ◌∷◌, ◌++◌, All, [], drop, length, take};
ghost use Rattle.tshape_data.specs.Columns.{HasContinuity, IsPolygonal, edge_number, edge_texts, p_curve_texts};
ghost use Rattle.tshape_data.specs.Reps.{form_of_edge, texts_of_edge};
ghost use Rattle.written_heads.specs.Named.{edge_locations};
ghost use Rattle.written_heads.specs.Words.{IsContinuous, IsWritableEdge, IsWritten, decimals_text, parameters_text};
ghost use Rattle.written_heads.specs.Words.{spaced, written_edge_rep, written_numbers};
ghost use Rattle.written_locations.specs.Added.{IsNumbering};

use crate::fields::{continuity_word, push_decimal, push_entries, push_located};
use brep_tokens::Decimals;
use byte_sink::{TakesBytes, push_byte};
use tshape_data::EdgeRep;
use written_locations::WrittenLocations;

/// The digit of a representation's form.
fn form_digit(rep: &EdgeRep) -> u8
    ensures { result ∷ [] ≡ decimal (edge_number (form_of_edge rep.now)) }
{
    match rep {
        EdgeRep::Curve { .. } => b'1',
        EdgeRep::Curve2 { .. } => b'2',
        EdgeRep::Seam { .. } => b'3',
        EdgeRep::Joint { .. } => b'4',
        EdgeRep::Polygon { .. } => b'5',
        EdgeRep::PolygonOn { .. } => b'6',
        EdgeRep::SeamPolygons { .. } => b'7',
    }
}

/// The numbers of a representation but its form's.
fn push_columns<B: TakesBytes>(text: &mut B, rep: &EdgeRep, locations: &WrittenLocations<'_>)
    requires numbering { IsNumbering locations.now }
    requires continuity { IsContinuous rep.now }
    requires named { All (IsWritten locations.now) (edge_locations rep.now) }
    ensures { B.gives text.old (written_numbers locations.now rep.now) text.new }
{
    match rep {
        EdgeRep::Curve {
            curve,
            location,
            ..
        } => push_located(text, &[*curve], *location, locations),
        EdgeRep::Curve2 {
            curve2,
            surface,
            location,
            ..
        } => push_located(text, &[*curve2, *surface], *location, locations),
        EdgeRep::Seam { .. } | EdgeRep::Joint { .. } => {
            push_columns_with_continuity(text, rep, locations)
        }
        EdgeRep::Polygon { .. } | EdgeRep::PolygonOn { .. } | EdgeRep::SeamPolygons { .. } => {
            push_polygon_columns(text, rep, locations)
        }
    }
}

/// The same of a representation with a continuity, which a seam has joined to the number before it.
fn push_columns_with_continuity<B: TakesBytes>(
    text: &mut B,
    rep: &EdgeRep,
    locations: &WrittenLocations<'_>,
)
    requires form { HasContinuity (form_of_edge rep.now) }
    requires numbering { IsNumbering locations.now }
    requires continuity { IsContinuous rep.now }
    requires named { All (IsWritten locations.now) (edge_locations rep.now) }
    ensures { B.gives text.old (written_numbers locations.now rep.now) text.new }
{
    match rep {
        EdgeRep::Seam {
            first_curve2,
            second_curve2,
            continuity,
            surface,
            location,
            ..
        } => {
            push_entries(text, &[*first_curve2, *second_curve2]);
            text.push(&continuity_word(*continuity));
            push_located(text, &[*surface], *location, locations)
        }
        EdgeRep::Joint {
            continuity,
            first_surface,
            first_location,
            second_surface,
            second_location,
        } => {
            push_byte(text, b' ');
            text.push(&continuity_word(*continuity));
            push_located(text, &[*first_surface], *first_location, locations);
            push_located(text, &[*second_surface], *second_location, locations)
        }
        _ => unreachable!(),
    }
}

/// The same of a polygon, or of polygons on a triangulation.
fn push_polygon_columns<B: TakesBytes>(
    text: &mut B,
    rep: &EdgeRep,
    locations: &WrittenLocations<'_>,
)
    requires form { IsPolygonal (form_of_edge rep.now) }
    requires numbering { IsNumbering locations.now }
    requires named { All (IsWritten locations.now) (edge_locations rep.now) }
    ensures { B.gives text.old (written_numbers locations.now rep.now) text.new }
{
    match rep {
        EdgeRep::Polygon { polygon, location } => {
            push_located(text, &[*polygon], *location, locations)
        }
        EdgeRep::PolygonOn {
            polygon_on,
            mesh,
            location,
        } => push_located(text, &[*polygon_on, *mesh], *location, locations),
        EdgeRep::SeamPolygons {
            first_polygon_on,
            second_polygon_on,
            mesh,
            location,
        } => {
            let entries = [*first_polygon_on, *second_polygon_on, *mesh];
            push_located(text, &entries, *location, locations)
        }
        _ => unreachable!(),
    }
}

/// The two parameters, each with a space before it, and the end of the line.
fn push_range<B: TakesBytes>(text: &mut B, texts: &Decimals)
    requires { 2 ≤ length texts.now }
    ensures { B.gives text.old (spaced (take 2 texts.now) ++ 10 ∷ []) text.new }
{
    push_byte(text, b' ');
    push_decimal(text, texts, 0, b' ');
    push_decimal(text, texts, 1, b'\n');
}

/// The line of the two UV points.
fn push_uv<B: TakesBytes>(text: &mut B, texts: &Decimals)
    requires { 6 ≤ length texts.now }
    ensures { B.gives text.old (line_text (drop 2 (take 6 texts.now))) text.new }
{
    push_decimal(text, texts, 2, b' ');
    push_decimal(text, texts, 3, b' ');
    push_decimal(text, texts, 4, b' ');
    push_decimal(text, texts, 5, b'\n');
}

/// The parameters of a p-curve, the end of the line, and in version 2 the line of the UV points.
fn push_p_curve<B: TakesBytes>(text: &mut B, texts: &Decimals, version: u8)
    requires { p_curve_texts version ≤ length texts.now }
    ensures { B.gives text.old (decimals_text (take (p_curve_texts version) texts.now)) text.new }
{
    push_range(text, texts);
    if version == 2 {
        push_uv(text, texts);
    }
}

/// The parameters of a representation, the end of the line, and in version 2 the line of the UV points.
fn push_parameters<B: TakesBytes>(text: &mut B, rep: &EdgeRep, version: u8)
    requires { edge_texts version (form_of_edge rep.now) ≤ length (texts_of_edge rep.now) }
    ensures { B.gives text.old (parameters_text version rep.now) text.new }
{
    match rep {
        EdgeRep::Curve { texts, .. } => push_range(text, texts),
        EdgeRep::Curve2 { texts, .. } => push_p_curve(text, texts, version),
        EdgeRep::Seam { texts, .. } => push_p_curve(text, texts, version),
        EdgeRep::Joint { .. } => push_byte(text, b'\n'),
        EdgeRep::Polygon { .. } => push_byte(text, b'\n'),
        EdgeRep::PolygonOn { .. } => push_byte(text, b'\n'),
        EdgeRep::SeamPolygons { .. } => push_byte(text, b'\n'),
    }
}

/// The lines of a representation.
fn push_edge_rep<B: TakesBytes>(
    text: &mut B,
    rep: &EdgeRep,
    version: u8,
    locations: &WrittenLocations<'_>,
)
    requires numbering { IsNumbering locations.now }
    requires writable { IsWritableEdge locations.now version rep.now }
    ensures { B.gives text.old (written_edge_rep locations.now version rep.now) text.new }
{
    push_byte(text, form_digit(rep));
    push_columns(text, rep, locations);
    push_parameters(text, rep, version)
}

/// The lines of an edge's representations.
pub(crate) fn push_edge_reps<B: TakesBytes>(
    text: &mut B,
    reps: &[EdgeRep],
    version: u8,
    locations: &WrittenLocations<'_>,
)
    requires numbering { IsNumbering locations.now }
    requires writable { All (IsWritableEdge locations.now version) reps.now }
    ensures { B.gives text.old (flat_map (written_edge_rep locations.now version) reps.now) text.new }
{
    for rep in reps {
        push_edge_rep(text, rep, version, locations);
    }
}
