//! The derivation of a step by keys: what the visits of each ask for, by the places of earlier keys.
use crate::words::Mover;
use location_words::WordId;
use orientation::Turn;
use shape_pool::NodeId;

/// What is made of the joined results of what a visit asks for.
#[derive(Clone, Copy, Debug, PartialEq, Eq)]
pub enum Outcome {
    /// The node stays as it is.
    Stays,
    /// The node is rebuilt over them.
    Rebuilt,
    /// They are the results themselves.
    Joined,
}

/// A use that a visit asks for, whose results are those of an earlier key.
#[derive(Clone, Copy, Debug, PartialEq, Eq)]
pub struct Link {
    pub turn: Turn,
    pub place: WordId,
    /// The place of its key.
    pub key: usize,
}

/// The visits of a key: what they ask for, and what is made of it.
#[derive(Drop)]
pub struct Visit {
    pub id: NodeId,
    pub outcome: Outcome,
    pub mover: Mover,
    pub links: Vec<Link>,
}
