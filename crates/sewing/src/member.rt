//! What is sewn.
use orientation::Turn;
use shape_pool::NodeId;

/// An edge that is sewn to another one, under a turn: forward, or reversed where it runs the other way.
#[derive(Clone, Copy, Debug, PartialEq, Eq)]
pub struct Member {
    pub id: NodeId,
    pub turn: Turn,
}
