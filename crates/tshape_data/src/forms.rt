//! The forms of representations.

/// The forms of a vertex's representations: a point on a curve, on a curve in the parameter plane of a surface, on a
/// surface.
#[derive(Clone, Copy, Debug, PartialEq, Eq)]
pub enum PointForm {
    OnCurve,
    OnCurve2,
    OnSurface,
}

/// The forms of an edge's representations: a curve in space; a p-curve on a surface; two p-curves on a closed surface;
/// the continuity between two surfaces; a polygon; a polygon on a triangulation; two of them on a triangulation of a
/// closed surface.
#[derive(Clone, Copy, Debug, PartialEq, Eq)]
pub enum EdgeForm {
    Curve,
    Curve2,
    Seam,
    Joint,
    Polygon,
    PolygonOn,
    SeamPolygons,
}
