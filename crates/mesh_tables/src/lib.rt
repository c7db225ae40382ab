//! The tables of polygons and of meshes: polygons in space, polygons on meshes, and meshes of triangles.
#![tactic(auto)]

mod entries;
mod entry_lists;
pub mod laws;
mod mesh_reader;
mod polygon_on_reader;
mod polygon_reader;
mod sections;
mod spell;

pub use entries::{Mesh, Polygon3, PolygonOnMesh};
pub use entry_lists::{Meshes, Polygons, PolygonsOn};
pub use mesh_reader::MeshReader;
pub use polygon_on_reader::PolygonOnMeshReader;
pub use polygon_reader::Polygon3Reader;
pub use spell::{MeshSpell, Polygon3Spell, PolygonOnMeshSpell};
