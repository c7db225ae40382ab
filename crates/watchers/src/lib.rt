//! Watchers that the caller hands in: they are told each event of a run, in order, for as long as they wish.
#![tactic(auto)]

mod counter;
mod event;
pub mod laws;
mod pair_list;
mod slot;
mod watcher;
mod watchers;

pub use counter::Counter;
pub use event::{Answer, Event, EventAct};
pub use pair_list::PairList;
pub use slot::{WatchRow, WatchState};
pub use watcher::Watcher;
pub use watchers::Watchers;
