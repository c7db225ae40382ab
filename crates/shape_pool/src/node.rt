//! Shared nodes and their uses.
ghost use Rattle.shape_pool.specs.Nodes.{IsBareCopy};

use location_words::WordId;
use orientation::{Kind, Turn};
use std::alloc::AllocError;
use std::rc::Rc;

/// The number of a node in its pool, counted from 0 in the order in which nodes came.
#[derive(Clone, Copy, Debug, PartialEq, Eq, PartialOrd, Ord, Hash)]
pub struct NodeId(pub u32);

/// A node: its number, kind and origin, and its uses in order. Equal nodes of a pool are one node, shared by all that
/// use it.
#[derive(Drop)]
#[cycle(node)]
pub struct Node {
    pub id: NodeId,
    pub kind: Kind,
    /// The number of the input record, or 0 for a compound that was made.
    pub origin: u32,
    pub uses: Vec<NodeUse>,
}

/// A use of a shared node, under a turn and the number of a word.
#[derive(Drop)]
#[cycle(node)]
pub struct NodeUse {
    pub turn: Turn,
    pub place: WordId,
    pub node: Rc<Node>,
}

/// A use by the number of its node.
#[derive(Clone, Copy, Debug, PartialEq, Eq, Hash)]
pub struct UseOf {
    pub turn: Turn,
    pub place: WordId,
    pub id: NodeId,
}

/// A copy has the number, the kind and the origin, and no uses: copying on write exchanges these at once.
impl Clone for Node {
    ghost is_clone = { IsBareCopy };

    fn clone(&self) -> Result<Node, AllocError> {
        Ok(Node {
            id: self.id,
            kind: self.kind,
            origin: self.origin,
            uses: Vec::new(*self.uses.allocator()),
        })
    }
}
