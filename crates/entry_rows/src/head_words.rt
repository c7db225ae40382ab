//! The data of heads in words.

use crate::saying::{add, add_number, add_texts};
use brep_tokens::Decimals;
use std::alloc::AllocError;
use tshape_data::{EdgeRep, Flags, Payload, PointRep};

/// Appends a name and numbers.
fn add_numbers(said: &mut String, name: &str, numbers: &[u32]) -> Result<(), AllocError> {
    add(said, name)?;
    for n in numbers {
        add_number(said, u64::from(*n))?;
    }
    Ok(())
}

/// Appends a name where its flag is set.
fn add_flag(said: &mut String, name: &str, is_set: bool) -> Result<(), AllocError> {
    if is_set { add(said, name) } else { Ok(()) }
}

/// Appends a name, numbers and decimals.
fn add_row(
    said: &mut String,
    name: &str,
    numbers: &[u32],
    texts: &Decimals,
) -> Result<(), AllocError> {
    add_numbers(said, name, numbers)?;
    said.push_str(":")?;
    add_texts(said, texts)
}

/// Appends a representation of a vertex.
fn add_point(said: &mut String, rep: &PointRep) -> Result<(), AllocError> {
    match rep {
        PointRep::OnCurve {
            texts,
            curve,
            location,
        } => add_row(said, "curve", &[*curve, *location], texts),
        PointRep::OnCurve2 {
            texts,
            curve2,
            surface,
            location,
        } => add_row(said, "curve2", &[*curve2, *surface, *location], texts),
        PointRep::OnSurface {
            texts,
            surface,
            location,
        } => add_row(said, "surface", &[*surface, *location], texts),
    }
}

/// Appends a representation of an edge.
fn add_edge_rep(said: &mut String, rep: &EdgeRep) -> Result<(), AllocError> {
    match rep {
        EdgeRep::Curve {
            curve,
            location,
            texts,
        } => add_row(said, "curve", &[*curve, *location], texts),
        EdgeRep::Curve2 {
            curve2,
            surface,
            location,
            texts,
        } => add_row(said, "curve2", &[*curve2, *surface, *location], texts),
        EdgeRep::Seam {
            first_curve2: first,
            second_curve2: second,
            continuity,
            surface,
            location,
            texts,
        } => {
            let numbers = [*first, *second, u32::from(*continuity), *surface, *location];
            add_row(said, "seam", numbers.as_slice(), texts)
        }
        EdgeRep::Joint {
            continuity,
            first_surface: first,
            first_location: at,
            second_surface: second,
            second_location: and_at,
        } => {
            let numbers = [u32::from(*continuity), *first, *at, *second, *and_at];
            add_numbers(said, "joint", numbers.as_slice())
        }
        EdgeRep::Polygon { polygon, location } => {
            add_numbers(said, "polygon", &[*polygon, *location])
        }
        EdgeRep::PolygonOn {
            polygon_on,
            mesh,
            location,
        } => add_numbers(said, "polygon-on", &[*polygon_on, *mesh, *location]),
        EdgeRep::SeamPolygons {
            first_polygon_on: first,
            second_polygon_on: second,
            mesh,
            location,
        } => add_numbers(said, "polygons-on", &[*first, *second, *mesh, *location]),
    }
}

/// Appends the data of a head.
pub fn add_payload(said: &mut String, payload: &Payload) -> Result<(), AllocError> {
    match payload {
        Payload::Vertex(vertex) => {
            add_texts(said, &vertex.texts)?;
            for rep in vertex.points.as_slice() {
                add_point(said, rep)?;
            }
        }
        Payload::Edge(edge) => {
            add_texts(said, &edge.tolerance)?;
            add_flag(said, "same-parameter", edge.same_parameter)?;
            add_flag(said, "same-range", edge.same_range)?;
            add_flag(said, "degenerated", edge.degenerated)?;
            for rep in edge.reps.as_slice() {
                add_edge_rep(said, rep)?;
            }
        }
        Payload::Face(face) => {
            add_flag(said, "natural", face.natural)?;
            add_texts(said, &face.tolerance)?;
            add_numbers(said, "surface", &[face.surface, face.location])?;
            if let Some(mesh) = face.mesh {
                add_numbers(said, "mesh", &[mesh])?;
            }
        }
        Payload::Nothing => {}
    }
    Ok(())
}

/// Appends the names of the flags that are set.
pub fn add_flags(said: &mut String, flags: &Flags) -> Result<(), AllocError> {
    add_flag(said, "free", flags.free)?;
    add_flag(said, "modified", flags.modified)?;
    add_flag(said, "checked", flags.checked)?;
    add_flag(said, "orientable", flags.orientable)?;
    add_flag(said, "closed", flags.closed)?;
    add_flag(said, "infinite", flags.infinite)?;
    add_flag(said, "convex", flags.convex)
}
