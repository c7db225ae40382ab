//! Nodes in an order, each with its place.
ghost use Rattle.shape_pool.specs.Rows.{most_nodes};
ghost use Rattle.written_order.specs.Placed.{IsNumbered, numbers_of, with_number};
ghost use Rattle.std.specs.Prelude.{◌≡◌, ◌<◌, ◌≤◌, ◌↔◌, [], length, Contains, IfNone, IfOk, IfSome, IsTrue, OnOk};

use shape_pool::NodeId;
use std::alloc::{AllocError, Global};
use std::marker::Model;

/// Nodes by their numbers in a pool, each once, in an order that grows. Contracts see the numbers, and below which the
/// numbers are.
#[derive(Drop)]
pub struct Order {
    ids: Vec<NodeId>,
    /// The place of each node, counted from 1, or 0 of one that isn't there.
    places: Vec<u32>,
}

impl Model for Order {
    ghost use Rattle.written_order.specs.Placed.{numbers_of, ArePlaced, Listed};
    ghost use Rattle.std.specs.Prelude.{length};

    ghost Value = { Listed };

    ghost view = { λ o. record { numbers = numbers_of o.ids.items; room = length o.places.items } };

    ghost invariant = { λ o. ArePlaced (numbers_of o.ids.items) o.places.items };
}

impl Order {
    /// No nodes yet, of the first ones of a pool.
    pub(crate) fn new(alloc: Global, room: usize) -> Result<Order, AllocError>
        requires { room ≤ most_nodes }
        ensures { IfOk result (λ o. o ≡ record { numbers = []; room = room }) }
    {
        Ok(Order {
            ids: Vec::new(alloc),
            places: vec![in alloc; 0; room]?,
        })
    }

    /// How many there are.
    pub fn len(&self) -> u32
        ensures { result ≡ length self.now.numbers }
    {
        self.ids.len() as u32
    }

    /// All of them, in their order.
    pub fn ids(&self) -> &[NodeId]
        ensures { numbers_of result.now ≡ self.now.numbers }
    {
        &self.ids
    }

    /// Whether a node is one of them.
    pub(crate) fn has(&self, id: NodeId) -> bool
        requires { id.0 < self.now.room }
        ensures { IsTrue result ↔ Contains self.now.numbers id.0 }
    {
        self.places[id.0 as usize] != 0
    }

    /// Appends a node that isn't there.
    pub(crate) fn push(&mut self, id: NodeId) -> Result<(), AllocError>
        requires room { id.0 < self.old.room }
        requires new { ¬ Contains self.old.numbers id.0 }
        ensures { OnOk result (self.new ≡ with_number self.old id.0) }
    {
        self.ids.push(id)?;
        self.places[id.0 as usize] = self.ids.len() as u32;
        Ok(())
    }

    /// The number that a node is written with: they are counted from the last node. None where the node isn't there.
    pub fn number(&self, id: NodeId) -> Option<u32>
        ensures some { IfSome result (λ n. IsNumbered self.now.numbers id.0 n) }
        ensures none { IfNone result (¬ Contains self.now.numbers id.0) }
    {
        match self.places.get(id.0 as usize) {
            Some(place) if *place != 0 => Some(self.len() - *place + 1),
            _ => None,
        }
    }
}
