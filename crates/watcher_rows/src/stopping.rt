//! Watchers that stop at an event of their choice.

use watchers::{Answer, Event, Watcher};

/// Has enough at an event, counted from 1.
#[derive(Drop)]
pub(crate) struct EnoughAt {
    left: u64,
    heard: u64,
}

impl EnoughAt {
    pub(crate) fn new(at: u64) -> EnoughAt {
        EnoughAt { left: at, heard: 0 }
    }
}

impl Watcher for EnoughAt {
    ghost use Rattle.std.specs.Prelude.{None, nat_lt, length, true};

    ghost shows = { λ w. record { heard = None; counted = w.heard; sure = true; wishes_more = λ l. nat_lt (length l) w.left } };

    fn told(&mut self, _e: Event) -> Answer {
        self.heard = self.heard.saturating_add(1);
        if self.left > 1 {
            self.left -= 1;
            Answer::More
        } else {
            Answer::Enough
        }
    }

    fn count(&self) -> u64 {
        self.heard
    }

    fn kept(&self, _i: u64) -> Option<Event> {
        None
    }
}

/// Finds no memory at an event, counted from 1.
#[derive(Drop)]
pub(crate) struct ShortAt {
    left: u64,
    heard: u64,
}

impl ShortAt {
    pub(crate) fn new(at: u64) -> ShortAt {
        ShortAt { left: at, heard: 0 }
    }
}

impl Watcher for ShortAt {
    ghost use Rattle.std.specs.Prelude.{None, false};
    ghost use Rattle.watchers.specs.Watching.{always};

    ghost shows = { λ w. always None w.heard false };

    fn told(&mut self, _e: Event) -> Answer {
        if self.left <= 1 {
            return Answer::NoMemory;
        }
        self.left -= 1;
        self.heard = self.heard.saturating_add(1);
        Answer::More
    }

    fn count(&self) -> u64 {
        self.heard
    }

    fn kept(&self, _i: u64) -> Option<Event> {
        None
    }
}
