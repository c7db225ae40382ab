//! A watcher that keeps what it hears.
ghost use Rattle.std.specs.Prelude.{◌≡◌, []};

use crate::event::{Answer, Event};
use crate::watcher::Watcher;
use std::alloc::Global;

/// Keeps the events that it is told, and wishes for more as long as it finds memory.
#[derive(Drop)]
pub struct PairList {
    events: Vec<Event>,
}

impl PairList {
    /// It has heard nothing, and takes no memory yet.
    pub fn new(alloc: Global) -> PairList
        ensures { result.events.items ≡ [] }
    {
        PairList {
            events: Vec::new(alloc),
        }
    }
}

impl Watcher for PairList {
    ghost use Rattle.std.specs.Prelude.{Some, false, length};
    ghost use Rattle.watchers.specs.Watching.{always};

    ghost shows = { λ w. always (Some w.events.items) (length w.events.items) false };

    fn told(&mut self, e: Event) -> Answer {
        match self.events.push(e) {
            Ok(()) => Answer::More,
            Err(_) => Answer::NoMemory,
        }
    }

    fn count(&self) -> u64 {
        self.events.len() as u64
    }

    fn kept(&self, i: u64) -> Option<Event> {
        if i < self.events.len() as u64 {
            Some(self.events[i as usize])
        } else {
            None
        }
    }
}
