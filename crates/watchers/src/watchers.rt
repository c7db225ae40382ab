//! All watchers of a run.
ghost use Rattle.std.specs.Prelude.{◌≡◌, ◌<◌, ◌↔◌, IfOk, IsTrue, [], length, map, Some, option_map, slice_get};
ghost use Rattle.watchers.specs.Told.{fresh, told_as};
ghost use Rattle.watchers.specs.TellsAll.{AreTold};

use crate::event::Event;
use crate::slot::{Slot, WatchRow};
use crate::watcher::Watcher;
use std::alloc::{AllocError, Global};

/// Watchers in the order in which they were handed in.
#[derive(Drop)]
pub struct Watchers {
    slots: Vec<Slot>,
}

impl Watchers {
    /// They all listen, and were told nothing.
    pub fn new(alloc: Global, list: Vec<Box<dyn Watcher>>) -> Result<Watchers, AllocError>
        ensures { IfOk result (λ w. map (λ s. told_as s.row (option_map (λ b. shows b) s.watcher)) w.slots.items
            ≡ map (λ b. fresh (shows b)) list.items) }
    {
        let mut slots = Vec::new(alloc);
        for watcher in list {
            slots.push(Slot::of(watcher))?;
        }
        Ok(Watchers { slots })
    }

    /// Tells an event to each that still listens, in their order, and drops those that don't answer that they wish for
    /// more.
    pub fn tell(&mut self, e: Event)
        ensures { AreTold e (map (λ s. told_as s.row (option_map (λ b. shows b) s.watcher)) self.old.slots.items)
            (map (λ s. told_as s.row (option_map (λ b. shows b) s.watcher)) self.new.slots.items) }
    {
        for i in 0..self.slots.len() {
            self.slots[i].tell(e);
        }
    }

    /// How many were handed in.
    pub fn len(&self) -> usize
        ensures { result ≡ length self.now.slots.items }
    {
        self.slots.len()
    }

    /// Were none handed in?
    pub fn is_empty(&self) -> bool {
        self.slots.is_empty()
    }

    /// What became of one that was handed in, counted from 0.
    pub fn row(&self, i: usize) -> WatchRow
        requires { i < length self.now.slots.items }
        ensures { option_map (λ s. s.row) (slice_get self.now.slots.items i) ≡ Some result }
    {
        self.slots[i].row
    }

    /// One that was handed in. None exactly where it was dropped.
    pub fn watcher(&self, i: usize) -> Option<&Box<dyn Watcher>>
        requires { i < length self.now.slots.items }
        ensures { option_map (λ s. option_map (λ b. shows b) s.watcher) (slice_get self.now.slots.items i)
            ≡ Some (option_map (λ b. shows b.now) result) }
    {
        self.slots[i].watcher.as_ref()
    }
}
