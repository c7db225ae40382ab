//! The entries of a section.
use crate::entries::{Mesh, Polygon3, PolygonOnMesh};
use lists::ListOf;

/// The entries of the section `Polygon3D`.
pub type Polygons = ListOf<Polygon3>;

/// The entries of the section `PolygonOnTriangulations`.
pub type PolygonsOn = ListOf<PolygonOnMesh>;

/// The entries of the section `Triangulations`.
pub type Meshes = ListOf<Mesh>;
