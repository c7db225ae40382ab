//! A watcher that counts.
ghost use Rattle.std.specs.Prelude.{◌≡◌};
ghost use Rattle.watchers.specs.Watching.{always};

use crate::event::{Answer, Event};
use crate::watcher::Watcher;

/// Counts the events that it is told and keeps none. It takes no memory, and always wishes for more.
#[derive(Drop)]
pub struct Counter {
    told: u64,
}

impl Counter {
    /// It has heard nothing.
    pub fn new() -> Counter
        ensures { result.told ≡ 0 }
    {
        Counter { told: 0 }
    }
}

impl Watcher for Counter {
    ghost use Rattle.std.specs.Prelude.{None, true};
    ghost use Rattle.watchers.specs.Watching.{always};

    ghost shows = { λ w. always None w.told true };

    fn told(&mut self, _e: Event) -> Answer {
        self.told = self.told.saturating_add(1);
        Answer::More
    }

    fn count(&self) -> u64 {
        self.told
    }

    fn kept(&self, _i: u64) -> Option<Event> {
        None
    }
}
