//! Rows of heads of records, in words and spelled again. The offset of each token is its place.
ghost use Rattle.std.specs.Prelude.{◌≡◌, ◌≤◌, ◌⊎◌, IsTrue};
ghost use Rattle.std.specs.List.{AllByRecursion};
ghost use Rattle.tshape_data.specs.RepReading.{most_reps};
ghost use Rattle.tshape_data.specs.Short.{IsShortEdgeRep, IsShortPayload, IsShortPoint};

use crate::head_words::{add_flags, add_payload};
use crate::reading::{Stop, token};
use crate::saying::{add, add_bytes, add_number, add_token, short, stopped, unknown};
use brep_tokens::Progress;
use orientation::kind_name;
use row_parts::Row;
use std::alloc::{AllocError, Global};
use tshape_data::{EdgeRep, EdgeReps, Head, HeadBounds, HeadReader, Payload, PointRep, PointReps};

/// The answer to a row of this module, which names a version.
pub fn answer(alloc: Global, row: &Row<'_>, text: &str) -> Result<Option<String>, AllocError> {
    match row.first {
        Some(1) => answer_in(alloc, 1, row, text),
        Some(2) => answer_in(alloc, 2, row, text),
        _ => Ok(None),
    }
}

/// The answer in a version.
fn answer_in(
    alloc: Global,
    version: u8,
    row: &Row<'_>,
    text: &str,
) -> Result<Option<String>, AllocError>
    requires { (version ≡ 1) ⊎ (version ≡ 2) }
{
    let second = row.second.unwrap_or(0);
    let said = match row.word {
        "head" => head_said(alloc, head(alloc, bounds(second), version, text))?,
        "spelled-head" => spelled(alloc, version, head(alloc, bounds(second), version, text))?,
        "wide-head" => spelled(alloc, version, head(alloc, alike(9), version, text))?,
        _ => return Ok(None),
    };
    Ok(Some(said))
}

/// Each table has another size, and so many representations stand before the record.
fn bounds(reps: u64) -> HeadBounds
    ensures { result.reps ≤ most_reps }
{
    HeadBounds {
        locations: 2,
        curve2s: 6,
        curves: 3,
        polygons: 4,
        polygons_on: 5,
        surfaces: 7,
        meshes: 8,
        reps: reps.min(8_388_608),
    }
}

/// Each table has the same size, and the record is the first.
fn alike(size: u32) -> HeadBounds
    ensures { result.reps ≤ most_reps }
{
    HeadBounds {
        locations: size,
        curve2s: size,
        curves: size,
        polygons: size,
        polygons_on: size,
        surfaces: size,
        meshes: size,
        reps: 0,
    }
}

/// The head and the number of its tokens.
fn head(alloc: Global, bounds: HeadBounds, version: u8, text: &str) -> Result<(Head, u64), Stop>
    requires version { (version ≡ 1) ⊎ (version ≡ 2) }
    requires few { bounds.reps ≤ most_reps }
{
    let mut reader = HeadReader::new(alloc, bounds, version);
    let mut offset = 0u64;
    for word in text.split_whitespace() {
        let token = token(offset, word)?;
        offset = offset.saturating_add(1);
        match reader.take(&token) {
            Ok(Progress::More) => {}
            Ok(Progress::Whole) => return Ok((reader.done(), offset)),
            Err(stop) => return Err(Stop::from(stop)),
        }
    }
    Err(Stop::More)
}

/// The number of tokens, the kind, the flags that are set, and the data; or why there is no head.
fn head_said(alloc: Global, read: Result<(Head, u64), Stop>) -> Result<String, AllocError> {
    match read {
        Err(stop) => stopped(alloc, &stop),
        Ok((head, tokens)) => {
            let mut said = String::new(alloc);
            add_number(&mut said, tokens)?;
            add_bytes(&mut said, kind_name(head.kind))?;
            add_flags(&mut said, &head.flags)?;
            said.push_str(":")?;
            add_payload(&mut said, &head.payload)?;
            Ok(said)
        }
    }
}

/// Fits each decimal a token?
fn short_point(rep: &PointRep) -> bool
    ensures { IsTrue result → IsShortPoint rep.now }
{
    match rep {
        PointRep::OnCurve { texts, .. } => short(texts),
        PointRep::OnCurve2 { texts, .. } => short(texts),
        PointRep::OnSurface { texts, .. } => short(texts),
    }
}

/// Fits each decimal a token?
fn short_edge_rep(rep: &EdgeRep) -> bool
    ensures { IsTrue result → IsShortEdgeRep rep.now }
{
    match rep {
        EdgeRep::Curve { texts, .. } => short(texts),
        EdgeRep::Curve2 { texts, .. } => short(texts),
        EdgeRep::Seam { texts, .. } => short(texts),
        EdgeRep::Joint { .. } => true,
        EdgeRep::Polygon { .. } => true,
        EdgeRep::PolygonOn { .. } => true,
        EdgeRep::SeamPolygons { .. } => true,
    }
}

/// Fits each decimal of a vertex a token?
fn short_points(reps: &PointReps) -> bool
    ensures { IsTrue result → AllByRecursion IsShortPoint reps.now }
{
    for at in 0..reps.len() {
        match reps.get(at) {
            Some(rep) => {
                if !short_point(rep) {
                    return false;
                }
            }
            None => return false,
        }
    }
    true
}

/// Fits each decimal of an edge a token?
fn short_edge_reps(reps: &EdgeReps) -> bool
    ensures { IsTrue result → AllByRecursion IsShortEdgeRep reps.now }
{
    for at in 0..reps.len() {
        match reps.get(at) {
            Some(rep) => {
                if !short_edge_rep(rep) {
                    return false;
                }
            }
            None => return false,
        }
    }
    true
}

/// Fits each decimal of the data a token?
fn short_payload(payload: &Payload) -> bool
    ensures { IsTrue result → IsShortPayload payload.now }
{
    match payload {
        Payload::Vertex(vertex) => short(&vertex.texts) && short_points(&vertex.points),
        Payload::Edge(edge) => short(&edge.tolerance) && short_edge_reps(&edge.reps),
        Payload::Face(face) => short(&face.tolerance),
        Payload::Nothing => true,
    }
}

/// The tokens that a head is spelled by; or why there is none.
fn spelled(
    alloc: Global,
    version: u8,
    read: Result<(Head, u64), Stop>,
) -> Result<String, AllocError> {
    match read {
        Err(stop) => stopped(alloc, &stop),
        Ok((head, _)) => {
            if !short_payload(&head.payload) {
                return unknown(alloc);
            }
            let mut said = String::new(alloc);
            for token in head.spell(version) {
                add_token(&mut said, &token)?;
            }
            Ok(said)
        }
    }
}
