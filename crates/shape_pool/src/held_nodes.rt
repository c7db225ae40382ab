//! The nodes of a pool by number, each beside its depth.
ghost use Rattle.std.specs.Prelude.{◌≡◌, ◌<◌, ◌≤◌, ◌++◌, ◌∷◌, [], Some, length, take, slice_get, OnErr, OnOk};
ghost use Rattle.std.specs.Option.{option_map};
ghost use Rattle.shape_pool.specs.Rows.{most_depth};
ghost use Rattle.shape_pool.specs.Held.{stored_depth};

use crate::held::Held;
use crate::node::Node;
use std::alloc::{AllocError, Global};
use std::marker::Model;
use std::rc::Rc;

/// Shared nodes in order, and the depths of their trees, each in 16 bits.
#[derive(Drop)]
pub(crate) struct HeldNodes {
    nodes: Vec<Rc<Node>>,
    depths: Vec<u16>,
}

impl Model for HeldNodes {
    ghost use Rattle.std.specs.Prelude.{List, length, ◌≡◌};
    ghost use Rattle.shape_pool.specs.declared.held.Held.{Held};
    ghost use Rattle.shape_pool.specs.Held.{held_of};
    ghost use Rattle.shape_pool.specs.contracts.held.Held as of_held;
    ghost use Rattle.std.specs.Coded.{codes};

    ghost Value = { List Held };

    ghost coded = { Prim.hlevel (codes, of_held.the_row.coded) };

    ghost view = { λ h. held_of h.nodes.items h.depths.items };

    ghost invariant = { λ h. length h.depths.items ≡ length h.nodes.items };
}

impl HeldNodes {
    /// No nodes.
    pub(crate) fn new(alloc: Global) -> HeldNodes
        ensures { result ≡ [] }
    {
        HeldNodes {
            nodes: Vec::new(alloc),
            depths: Vec::new(alloc),
        }
    }

    /// What allocates.
    pub(crate) fn allocator(&self) -> Global {
        *self.nodes.allocator()
    }

    /// How many there are.
    pub(crate) fn len(&self) -> usize
        ensures { result ≡ length self.now }
    {
        self.nodes.len()
    }

    /// The node at a place.
    pub(crate) fn node(&self, at: usize) -> &Rc<Node>
        requires { at < length self.now }
        ensures { option_map (λ h. h.node) (slice_get self.now at) ≡ Some result.now }
    {
        &self.nodes[at]
    }

    /// The depth at a place.
    pub(crate) fn depth(&self, at: usize) -> u32
        requires { at < length self.now }
        ensures { result ≡ stored_depth self.now at }
    {
        self.depths[at] as u32
    }

    /// Puts a node last.
    pub(crate) fn push(&mut self, held: Held) -> Result<(), AllocError>
        requires { held.depth ≤ most_depth }
        ensures ok { OnOk result (self.new ≡ self.old ++ held ∷ []) }
        ensures err { OnErr result (self.new ≡ self.old) }
    {
        let Held { node, depth } = held;
        self.depths.reserve(1)?;
        match self.nodes.push(node) {
            Ok(()) => {}
            Err(_) => return Err(AllocError),
        }
        self.depths.push_reserved(depth as u16);
        Ok(())
    }

    /// Keeps the first nodes alone.
    pub(crate) fn truncate(&mut self, count: usize)
        ensures { self.new ≡ take count self.old }
    {
        self.nodes.truncate(count);
        self.depths.truncate(count);
    }
}
