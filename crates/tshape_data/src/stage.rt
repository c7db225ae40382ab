//! Which token of a head is due.

use crate::head::Flags;
use orientation::Kind;

/// The flags of an edge.
#[derive(Clone, Copy)]
pub(crate) struct EdgeFlags {
    pub same_parameter: bool,
    pub same_range: bool,
    pub degenerated: bool,
}

/// Whether its surface bounds a face, its surface (0 for none) and its location.
#[derive(Clone, Copy)]
pub(crate) struct Support {
    pub natural: bool,
    pub surface: u32,
    pub location: u32,
}

/// The data of a record but for its texts and representations.
#[derive(Clone, Copy)]
pub(crate) enum Fields {
    Vertex,
    Edge { flags: EdgeFlags },
    Face { support: Support, mesh: Option<u32> },
    /// None, for a record of this kind.
    Nothing { kind: Kind },
}

/// What is due next.
#[derive(Clone, Copy)]
pub(crate) enum Stage {
    Kind,
    /// The tolerance and the coordinates of a vertex.
    VertexTexts,
    Points,
    /// The tolerance of an edge.
    Tolerance,
    SameParameter,
    SameRange {
        same_parameter: bool,
    },
    Degenerated {
        same_parameter: bool,
        same_range: bool,
    },
    EdgeReps {
        flags: EdgeFlags,
    },
    /// Whether its surface bounds a face.
    Natural,
    FaceTolerance {
        natural: bool,
    },
    Surface {
        natural: bool,
    },
    Location {
        natural: bool,
        surface: u32,
    },
    /// `2` before a face's triangulation, or the flags.
    Mesh {
        support: Support,
    },
    /// The triangulation of a face.
    MeshNumber {
        support: Support,
    },
    Flags {
        fields: Fields,
    },
    Whole {
        fields: Fields,
        flags: Flags,
    },
}
