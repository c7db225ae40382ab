//! The nodes of a pool, and how they are found: a loaded one by its origin, the others by an index of origins and uses.
ghost use Rattle.std.specs.Prelude.{◌≡◌, ℕ, ◌<◌, ◌≤◌, ◌+◌, ◌++◌, ◌∷◌, [], Some, false, length};
ghost use Rattle.std.specs.Prelude.{take, slice_get, IsTrue, ◌↔◌, IfNone, IfSome, OnErr, OnOk};
ghost use Rattle.shape_pool.specs.declared.held.Made.{Made as AMade};
ghost use Rattle.shape_pool.specs.Nodes.{node_id, node_origin};
ghost use Rattle.shape_pool.specs.Rows.{most_depth, most_nodes};
ghost use Rattle.shape_pool.specs.Calls.{IsLoaded, IsLoadedAs, IsOf};
ghost use Rattle.shape_pool.specs.Held.{rows_of, HasAlike, HasNone, HasNoneLoaded, IsKnown, KeepsOthers};

use crate::held::{Held, Made, alike};
use crate::held_nodes::HeldNodes;
use crate::node::NodeId;
use indexmap::IndexSet;
use std::alloc::{AllocError, Global};
use std::marker::Model;

/// Nodes by number, an index of those that were made, and a number for each origin up to the greatest that was loaded.
/// Such a number counts only where its node is held and has the origin, so that going back leaves these as they are.
#[derive(Drop)]
pub(crate) struct Stock {
    held: HeldNodes,
    made: IndexSet<Made>,
    loaded: Vec<NodeId>,
}

impl Model for Stock {
    ghost use Rattle.std.specs.Prelude.{List, slice_get};
    ghost use Rattle.shape_pool.specs.declared.held.Held.{Held};
    ghost use Rattle.shape_pool.specs.Held.{IsStock};
    ghost use Rattle.shape_pool.specs.contracts.held.Held as of_held;
    ghost use Rattle.std.specs.Coded.{codes};

    ghost Value = { List Held };

    ghost coded = { Prim.hlevel (codes, of_held.the_row.coded) };

    ghost view = { λ s. s.held };

    ghost invariant = { λ s. IsStock s.held s.made.keys (slice_get s.loaded.items) };
}

impl Stock {
    /// No nodes.
    pub(crate) fn new(alloc: Global) -> Stock
        ensures { result ≡ [] }
    {
        Stock {
            held: HeldNodes::new(alloc),
            made: IndexSet::new(alloc),
            loaded: Vec::new(alloc),
        }
    }

    /// The nodes by number.
    pub(crate) fn held(&self) -> &HeldNodes
        ensures { result.now ≡ self.now }
    {
        &self.held
    }

    /// The number that an origin was loaded as, and none where it isn't loaded.
    pub(crate) fn named(&self, origin: u32) -> Option<NodeId>
        ensures some { IfSome result (λ id. IsLoadedAs (rows_of self.now) origin id.0) }
        ensures none { IfNone result (¬ IsLoaded (rows_of self.now) origin) }
    {
        if origin == 0 {
            return None;
        }
        match self.loaded.get(origin as usize) {
            Some(id) if self.is_of(*id, origin) => Some(*id),
            _ => None,
        }
    }

    /// Whether a number is held, with a node of this origin.
    fn is_of(&self, id: NodeId, origin: u32) -> bool
        ensures { IsTrue result ↔ IsOf (rows_of self.now) origin id.0 }
    {
        let at = id.0 as usize;
        if at >= self.held.len() {
            return false;
        }
        self.held.node(at).origin == origin
    }

    /// The number of a node of the same origin and uses, and none where none is held.
    pub(crate) fn find(&self, node: &Made) -> Option<NodeId>
        ensures some { IfSome result (λ id. HasAlike self.now node.now.node.value id.0) }
        ensures none { IfNone result (HasNone self.now node.now.node.value) }
    {
        if let Some(id) = self.loaded_alike(node) {
            return Some(id);
        }
        match self.made.get_index_of(node) {
            Some(place) => Some(self.made.as_slice()[place].node.id),
            None => None,
        }
    }

    /// The loaded node of the same origin, where it has the same uses.
    fn loaded_alike(&self, node: &Made) -> Option<NodeId>
        ensures some { IfSome result (λ id. HasAlike self.now node.now.node.value id.0) }
        ensures none { IfNone result (HasNoneLoaded self.now node.now.node.value) }
    {
        let id = self.named(node.node.origin)?;
        if alike(&node.node, self.held.node(id.0 as usize)) {
            Some(id)
        } else {
            None
        }
    }

    /// Puts a node last that none is like, of an origin that stands for no record or has been loaded.
    pub(crate) fn add_made(&mut self, node: Held, key: Made) -> Result<(), AllocError>
        requires key { key.node.value ≡ node.node.value }
        requires id { node_id node.node.value ≡ length self.old }
        requires depth { node.depth ≤ most_depth }
        requires new { HasNone self.old node.node.value }
        requires known { IsKnown (rows_of self.old) (node_origin node.node.value) }
        ensures ok { OnOk result (self.new ≡ self.old ++ node ∷ []) }
        ensures err { OnErr result (self.new ≡ self.old) }
    {
        self.made.reserve(1)?;
        self.held.push(node)?;
        let _ = self.made.insert(key).unwrap();
        Ok(())
    }

    /// Puts a node last of an origin that isn't loaded.
    pub(crate) fn add_loaded(&mut self, node: Held) -> Result<(), AllocError>
        requires few { length self.old < most_nodes }
        requires depth { node.depth ≤ most_depth }
        requires origin { 0 < node_origin node.node.value }
        requires new { ¬ IsLoaded (rows_of self.old) (node_origin node.node.value) }
        ensures ok { OnOk result (self.new ≡ self.old ++ node ∷ []) }
        ensures err { OnErr result (self.new ≡ self.old) }
    {
        let next = NodeId(self.held.len() as u32);
        note(&mut self.loaded, node.node.origin, next)?;
        self.held.push(node)
    }

    /// Keeps the nodes with numbers below a mark.
    pub(crate) fn truncate(&mut self, mark: u32)
        ensures { self.new ≡ take mark self.old }
    {
        let left = below(self.made.as_slice(), mark);
        self.made.truncate(left);
        self.held.truncate(mark as usize);
    }
}

/// How many made nodes there are up to the last with a number below a mark.
fn below(made: &[Made], mark: u32) -> usize
    ensures within { result ≤ length made.now }
    ensures last { (m : AMade) (j : ℕ) → j + 1 ≡ result → slice_get made.now j ≡ Some m → node_id m.node.value < mark }
    ensures past { (j : ℕ) (m : AMade) → result ≤ j → slice_get made.now j ≡ Some m → mark ≤ node_id m.node.value }
{
    let mut left = made.len();
    while left > 0 && made[left - 1].node.id.0 >= mark {
        left -= 1;
    }
    left
}

/// Notes the number under which an origin is loaded. Entries that are made for origins between stand for nothing.
fn note(loaded: &mut Vec<NodeId>, origin: u32, id: NodeId) -> Result<(), AllocError>
    ensures noted { OnOk result (slice_get loaded.new.items origin ≡ Some id) }
    ensures others { OnOk result (KeepsOthers origin loaded.old.items loaded.new.items) }
    ensures err { OnErr result (loaded.new.items ≡ loaded.old.items) }
{
    let place = origin as usize;
    if place < loaded.len() {
        loaded[place] = id;
        return Ok(());
    }
    loaded.resize(place + 1, id)
}
