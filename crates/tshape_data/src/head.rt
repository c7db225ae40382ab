//! A record without its uses.

use crate::reps::{EdgeReps, PointReps};
use brep_tokens::Decimals;
use orientation::Kind;

/// The seven flags of a record, in the order in which they are written.
#[derive(Clone, Copy, Debug, PartialEq, Eq)]
pub struct Flags {
    pub free: bool,
    pub modified: bool,
    pub checked: bool,
    pub orientable: bool,
    pub closed: bool,
    pub infinite: bool,
    pub convex: bool,
}

/// The data of a vertex: `texts` are its tolerance and its three coordinates, as they are spelled.
#[derive(Drop)]
pub struct VertexData {
    pub texts: Decimals,
    pub points: PointReps,
}

/// The data of an edge.
#[derive(Drop)]
pub struct EdgeData {
    pub tolerance: Decimals,
    pub same_parameter: bool,
    pub same_range: bool,
    pub degenerated: bool,
    pub reps: EdgeReps,
}

/// The data of a face: whether its surface bounds it, its tolerance, its surface (0 for none), its location and its
/// triangulation.
#[derive(Drop)]
pub struct FaceData {
    pub natural: bool,
    pub tolerance: Decimals,
    pub surface: u32,
    pub location: u32,
    pub mesh: Option<u32>,
}

/// The data of a record: of a vertex, an edge or a face. Records of the other kinds have none.
#[derive(Drop)]
pub enum Payload {
    Vertex(VertexData),
    Edge(EdgeData),
    Face(FaceData),
    Nothing,
}

/// A record without its uses.
#[derive(Drop)]
pub struct Head {
    pub kind: Kind,
    pub payload: Payload,
    pub flags: Flags,
}
