//! Numbers of nodes that were met on a walk.
ghost use Rattle.std.specs.Prelude.{◌≡◌, ◌≤◌, ◌↔◌, [], drop, length, Contains, IsTrue, OnOk};
ghost use Rattle.step_history.specs.Gathering.{IsNoted};

use indexmap::IndexSet;
use std::alloc::{AllocError, Global};
use std::marker::Model;

/// Numbers in the order in which they were met, each once. A number is found in them at once.
#[derive(Drop)]
pub struct Met {
    ids: IndexSet<u32>,
}

impl Model for Met {
    ghost use Rattle.std.specs.Prelude.{List, ℕ};

    ghost Value = { List ℕ };

    ghost view = { λ m. m.ids.keys };
}

impl Met {
    /// None.
    pub fn new(alloc: Global) -> Met
        ensures { result ≡ [] }
    {
        Met {
            ids: IndexSet::new(alloc),
        }
    }

    /// How many there are.
    pub fn len(&self) -> usize
        ensures { result ≡ length self.now }
    {
        self.ids.len()
    }

    /// Whether a number is one of them.
    pub fn has(&self, id: u32) -> bool
        ensures { IsTrue result ↔ Contains self.now id }
    {
        self.ids.contains(&id)
    }

    /// All of them.
    pub fn as_slice(&self) -> &[u32]
        ensures { result.now ≡ self.now }
    {
        self.ids.as_slice()
    }

    /// Those from a place on, counted from 0.
    pub fn since(&self, at: usize) -> &[u32]
        requires { at ≤ length self.now }
        ensures { result.now ≡ drop at self.now }
    {
        &self.ids.as_slice()[at..]
    }

    /// Meets a number.
    pub fn note(&mut self, id: u32) -> Result<(), AllocError>
        ensures { OnOk result (IsNoted self.old id self.new) }
    {
        self.ids.insert(id)?;
        Ok(())
    }

    /// Forgets all.
    pub fn clear(&mut self)
        ensures { self.new ≡ [] }
    {
        self.ids.clear();
    }
}
