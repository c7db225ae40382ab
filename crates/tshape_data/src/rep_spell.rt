//! The tokens of representations.
ghost use Rattle.std.specs.Prelude.{◌≡◌, ◌++◌};
ghost use Rattle.std.specs.Fmt.{decimal};
ghost use Rattle.entry_readers.specs.Spelled.{AreShort};
ghost use Rattle.tshape_data.specs.Columns.{HasContinuity, IsPolygonal, p_curve_texts, point_number};
ghost use Rattle.tshape_data.specs.Parts.{texts_in};
ghost use Rattle.tshape_data.specs.Reps.{form_of_edge, form_of_point, texts_of_edge, texts_of_point};
ghost use Rattle.tshape_data.specs.SpellLeft.{CanGiveChunk, chunk_left, edge_number_texts, first_texts};
ghost use Rattle.tshape_data.specs.SpellLeft.{point_number_texts, rest_texts, word_text, words_of};

use crate::chunks::{ChunkSpell, words_alone, words_around};
use crate::head_words::Word;
use crate::ranges::RangeSpell;
use crate::reps::{EdgeRep, PointRep};
use crate::word_lists::Words;
use brep_tokens::Decimals;

/// A number as a word.
pub fn number(n: u32) -> Word
    ensures { word_text result ≡ decimal n }
{
    Word::Number(n as u64)
}

/// The parameters of a representation of a vertex.
fn point_texts(p: &PointRep) -> &Decimals
    ensures { result.now ≡ texts_of_point p.now }
{
    match p {
        PointRep::OnCurve { texts, .. } => texts,
        PointRep::OnCurve2 { texts, .. } => texts,
        PointRep::OnSurface { texts, .. } => texts,
    }
}

/// The number of its form.
fn point_form(p: &PointRep) -> Word
    ensures { word_text result ≡ decimal (point_number (form_of_point p.now)) }
{
    match p {
        PointRep::OnCurve { .. } => Word::Number(1),
        PointRep::OnCurve2 { .. } => Word::Number(2),
        PointRep::OnSurface { .. } => Word::Number(3),
    }
}

/// Its other numbers.
fn point_words(p: &PointRep) -> Words
    ensures { words_of result ≡ point_number_texts p.now }
{
    match p {
        PointRep::OnCurve {
            curve,
            location,
            ..
        } => Words::two(number(*curve), number(*location)),
        PointRep::OnCurve2 {
            curve2,
            surface,
            location,
            ..
        } => Words::three(number(*curve2), number(*surface), number(*location)),
        PointRep::OnSurface {
            surface,
            location,
            ..
        } => Words::two(number(*surface), number(*location)),
    }
}

/// A representation of a vertex up to the number of its form.
pub fn point_first<'a>(p: &'a PointRep) -> ChunkSpell<'a>
    requires { AreShort (texts_of_point p.now) }
    ensures left { chunk_left result ≡ first_texts p.now }
    ensures can { CanGiveChunk result }
{
    words_around(
        Words::none(),
        RangeSpell::new(point_texts(p), 0, 1),
        Words::one(point_form(p)),
    )
}

/// What stands behind it.
pub fn point_rest<'a>(p: &'a PointRep) -> ChunkSpell<'a>
    requires { AreShort (texts_of_point p.now) }
    ensures left { chunk_left result ≡ rest_texts p.now }
    ensures can { CanGiveChunk result }
{
    let texts = point_texts(p);
    words_around(
        Words::none(),
        RangeSpell::new(texts, 1, texts.len()),
        point_words(p),
    )
}

/// The number of the form of a representation of an edge, and its other numbers.
fn edge_words(r: &EdgeRep) -> Words
    ensures { words_of result ≡ edge_number_texts r.now }
{
    match r {
        EdgeRep::Curve {
            curve,
            location,
            ..
        } => Words::three(Word::Number(1), number(*curve), number(*location)),
        EdgeRep::Curve2 {
            curve2,
            surface,
            location,
            ..
        } => Words::four(
            Word::Number(2),
            number(*curve2),
            number(*surface),
            number(*location),
        ),
        EdgeRep::Seam { .. } | EdgeRep::Joint { .. } => words_with_continuity(r),
        EdgeRep::Polygon { .. } | EdgeRep::PolygonOn { .. } | EdgeRep::SeamPolygons { .. } => {
            polygon_words(r)
        }
    }
}

/// The same of a representation with a continuity.
fn words_with_continuity(r: &EdgeRep) -> Words
    requires { HasContinuity (form_of_edge r.now) }
    ensures { words_of result ≡ edge_number_texts r.now }
{
    match r {
        EdgeRep::Seam {
            first_curve2,
            second_curve2,
            continuity,
            surface,
            location,
            ..
        } => Words::six(
            Word::Number(3),
            number(*first_curve2),
            number(*second_curve2),
            Word::Continuity(*continuity),
            number(*surface),
            number(*location),
        ),
        EdgeRep::Joint {
            continuity,
            first_surface,
            first_location,
            second_surface,
            second_location,
        } => Words::six(
            Word::Number(4),
            Word::Continuity(*continuity),
            number(*first_surface),
            number(*first_location),
            number(*second_surface),
            number(*second_location),
        ),
        _ => unreachable!(),
    }
}

/// The same of a polygon, or of polygons on a triangulation.
fn polygon_words(r: &EdgeRep) -> Words
    requires { IsPolygonal (form_of_edge r.now) }
    ensures { words_of result ≡ edge_number_texts r.now }
{
    match r {
        EdgeRep::Polygon { polygon, location } => Words::three(
            Word::Number(5),
            number(*polygon),
            number(*location),
        ),
        EdgeRep::PolygonOn {
            polygon_on,
            mesh,
            location,
        } => Words::four(
            Word::Number(6),
            number(*polygon_on),
            number(*mesh),
            number(*location),
        ),
        EdgeRep::SeamPolygons {
            first_polygon_on,
            second_polygon_on,
            mesh,
            location,
        } => Words::five(
            Word::Number(7),
            number(*first_polygon_on),
            number(*second_polygon_on),
            number(*mesh),
            number(*location),
        ),
        _ => unreachable!(),
    }
}

/// How many decimals a p-curve has in a version.
fn p_curve_count(version: u8) -> usize
    ensures { result ≡ p_curve_texts version }
{
    if version == 2 { 6 } else { 2 }
}

/// A representation of an edge, whose decimals are spelled as many as a version has.
pub fn edge_rep<'a>(r: &'a EdgeRep, version: u8) -> ChunkSpell<'a>
    requires { AreShort (texts_of_edge r.now) }
    ensures left { chunk_left result ≡ edge_number_texts r.now ++ texts_in version r.now }
    ensures can { CanGiveChunk result }
{
    let words = edge_words(r);
    match r {
        EdgeRep::Curve { texts, .. } => words_around(
            words,
            RangeSpell::new(texts, 0, 2),
            Words::none(),
        ),
        EdgeRep::Curve2 { texts, .. } => words_around(
            words,
            RangeSpell::new(texts, 0, p_curve_count(version)),
            Words::none(),
        ),
        EdgeRep::Seam { texts, .. } => words_around(
            words,
            RangeSpell::new(texts, 0, p_curve_count(version)),
            Words::none(),
        ),
        EdgeRep::Joint { .. } => words_alone(words),
        EdgeRep::Polygon { .. } => words_alone(words),
        EdgeRep::PolygonOn { .. } => words_alone(words),
        EdgeRep::SeamPolygons { .. } => words_alone(words),
    }
}
