//! Nodes as a pool holds them, and when two of them are one: told from others by their origin and their uses.
ghost use Rattle.std.specs.Prelude.{◌≡◌};
ghost use Rattle.std.specs.Cmp.Rules.{comparing, hashing};
ghost use Rattle.std.proofs.Common.{rules};
ghost use Rattle.shape_pool.specs.Nodes.{node_eq, use_eq, use_input};
ghost use Rattle.shape_pool.specs.Held.{made_alike, made_eq, made_equiv, made_input};
ghost use Rattle.std.specs.Cmp.{partial_equiv_from_equiv};

use crate::node::{Node, NodeUse};
use orientation::sign;
use std::hash::{Hash, Hasher};
use std::rc::Rc;

/// A shared node and the depth of its tree.
#[derive(Drop)]
pub(crate) struct Held {
    pub(crate) node: Rc<Node>,
    pub(crate) depth: u32,
}

/// A shared node as the index of made nodes holds it: told from others by its origin and its uses.
#[derive(Drop)]
pub(crate) struct Made {
    pub(crate) node: Rc<Node>,
}

impl PartialEq for NodeUse {
    ghost eq = { use_eq };

    ghost laws = { Prim.search (comparing, rules) };

    /// Whether two uses are one, their nodes told by number.
    fn eq(&self, other: &NodeUse) -> bool {
        sign(self.turn) == sign(other.turn)
            && self.place.0 == other.place.0
            && self.node.id.0 == other.node.id.0
    }
}

impl Eq for NodeUse {
    ghost laws = { Prim.search (comparing, rules) };
}

impl Hash for NodeUse {
    ghost hash_input = { use_input };

    ghost respects_eq = { Prim.search (hashing, rules) };

    fn hash<H: Hasher>(&self, state: &mut H) {
        sign(self.turn).hash(state);
        self.place.0.hash(state);
        self.node.id.0.hash(state);
    }
}

/// Whether two nodes have one origin and the same uses.
pub(crate) fn alike(a: &Rc<Node>, b: &Rc<Node>) -> bool
    ensures { result ≡ node_eq a.now.value b.now.value }
{
    a.origin == b.origin && a.uses.as_slice() == b.uses.as_slice()
}

impl PartialEq for Made {
    ghost eq = { made_eq };

    ghost laws = { partial_equiv_from_equiv made_equiv };

    fn eq(&self, other: &Made) -> bool {
        alike(&self.node, &other.node)
    }
}

impl Eq for Made {
    ghost laws = { made_equiv };
}

impl Hash for Made {
    ghost hash_input = { made_input };

    ghost respects_eq = { made_alike.fed };

    fn hash<H: Hasher>(&self, state: &mut H) {
        self.node.origin.hash(state);
        self.node.uses.as_slice().hash(state);
    }
}
