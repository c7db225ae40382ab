//! Representations: where a vertex lies on curves and surfaces, and where an edge does.

use brep_tokens::Decimals;
use lists::ListOf;

/// A representation of a vertex. `texts` are its parameters.
#[derive(Drop)]
pub enum PointRep {
    OnCurve {
        texts: Decimals,
        curve: u32,
        location: u32,
    },
    OnCurve2 {
        texts: Decimals,
        curve2: u32,
        surface: u32,
        location: u32,
    },
    OnSurface {
        texts: Decimals,
        surface: u32,
        location: u32,
    },
}

/// A representation of an edge. `texts` are the first and the last parameter, and in version 2 with p-curves then the
/// first and the last UV point. A continuity is the place of its word among `C0`, `C1`, `C2`, `C3`, `CN`, `G1` and
/// `G2`, from 0.
#[derive(Drop)]
pub enum EdgeRep {
    Curve {
        curve: u32,
        location: u32,
        texts: Decimals,
    },
    Curve2 {
        curve2: u32,
        surface: u32,
        location: u32,
        texts: Decimals,
    },
    Seam {
        first_curve2: u32,
        second_curve2: u32,
        continuity: u8,
        surface: u32,
        location: u32,
        texts: Decimals,
    },
    Joint {
        continuity: u8,
        first_surface: u32,
        first_location: u32,
        second_surface: u32,
        second_location: u32,
    },
    Polygon {
        polygon: u32,
        location: u32,
    },
    PolygonOn {
        polygon_on: u32,
        mesh: u32,
        location: u32,
    },
    SeamPolygons {
        first_polygon_on: u32,
        second_polygon_on: u32,
        mesh: u32,
        location: u32,
    },
}

/// The representations of a vertex, in their order.
pub type PointReps = ListOf<PointRep>;

/// The representations of an edge, in their order.
pub type EdgeReps = ListOf<EdgeRep>;
