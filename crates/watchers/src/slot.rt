//! A watcher that was handed in, and what became of it.
ghost use Rattle.std.specs.Prelude.{◌≡◌, option_map};
ghost use Rattle.watchers.specs.Told.{IsTold, fresh, row_of, told_as};
ghost use Rattle.watchers.specs.Watching.{one_more};

use crate::event::{Answer, Event};
use crate::watcher::Watcher;

/// What became of a watcher.
#[derive(Clone, Copy, Debug, PartialEq, Eq)]
pub enum WatchState {
    /// It is told what comes.
    Listening,
    /// It had enough.
    Enough,
    /// It found no memory.
    NoMemory,
}

/// How many events a watcher has heard, up to the last u64, and what became of it.
#[derive(Clone, Copy, Debug, PartialEq, Eq)]
pub struct WatchRow {
    pub told: u64,
    pub state: WatchState,
}

impl WatchRow {
    /// One event more was heard.
    fn heard(self, state: WatchState) -> WatchRow
        ensures { result ≡ row_of (one_more self.told) state }
    {
        WatchRow {
            told: self.told.saturating_add(1),
            state,
        }
    }
}

/// A watcher, until it is dropped.
#[derive(Drop)]
pub(crate) struct Slot {
    pub(crate) row: WatchRow,
    pub(crate) watcher: Option<Box<dyn Watcher>>,
}

impl Slot {
    /// It listens, and was told nothing.
    pub(crate) fn of(watcher: Box<dyn Watcher>) -> Slot
        ensures { told_as result.row (option_map (λ b. shows b) result.watcher) ≡ fresh (shows watcher) }
    {
        Slot {
            row: WatchRow {
                told: 0,
                state: WatchState::Listening,
            },
            watcher: Some(watcher),
        }
    }

    /// Tells it an event, where it listens, and drops it where it doesn't answer that it wishes for more.
    pub(crate) fn tell(&mut self, e: Event)
        ensures { IsTold e (told_as self.old.row (option_map (λ b. shows b) self.old.watcher))
            (told_as self.new.row (option_map (λ b. shows b) self.new.watcher)) }
    {
        match self.watcher.take() {
            None => {}
            Some(mut watcher) => match watcher.told(e) {
                Answer::More => {
                    self.row = self.row.heard(WatchState::Listening);
                    self.watcher = Some(watcher);
                }
                Answer::Enough => self.row = self.row.heard(WatchState::Enough),
                Answer::NoMemory => self.row.state = WatchState::NoMemory,
            },
        }
    }
}
