//! The entries of the tables of polygons and of meshes.
use brep_tokens::{Decimals, Numbers};

/// A polygon in space: an entry of the section `Polygon3D`.
#[derive(Drop)]
pub struct Polygon3 {
    /// How many nodes it has.
    pub nodes: u64,
    /// Does each node have a parameter on its curve?
    pub params: bool,
    /// The deflection, three coordinates of each node, and the parameters.
    pub texts: Decimals,
}

/// A polygon on the nodes of a mesh: an entry of the section `PolygonOnTriangulations`.
#[derive(Drop)]
pub struct PolygonOnMesh {
    /// The numbers of its nodes in the mesh, as they stand: no mesh is asked for them.
    pub nodes: Numbers,
    /// Does each node have a parameter on its curve?
    pub params: bool,
    /// The deflection, and the parameters.
    pub texts: Decimals,
}

/// A mesh of triangles: an entry of the section `Triangulations`.
#[derive(Drop)]
pub struct Mesh {
    /// How many nodes it has.
    pub nodes: u64,
    /// How many triangles it has.
    pub triangles: u64,
    /// Does each node have two parameters on its surface?
    pub uv: bool,
    /// The deflection, three coordinates of each node, and the parameters, two of each node.
    pub texts: Decimals,
    /// Three numbers of nodes for each triangle.
    pub corners: Numbers,
}
