//! What became of watchers, in words.

use crate::events::act_name;
use std::alloc::{AllocError, Global};
use watchers::{WatchState, Watcher, Watchers};

/// The name of a state.
fn state_name(state: WatchState) -> &'static str {
    match state {
        WatchState::Listening => "listening",
        WatchState::Enough => "enough",
        WatchState::NoMemory => "no memory",
    }
}

/// Appends what a watcher counts and keeps.
fn add_kept(all: &mut String, alloc: Global, watcher: &Box<dyn Watcher>) -> Result<(), AllocError> {
    all.push_str(format!(in alloc; " {} of", watcher.count())?.as_str())?;
    for at in 0..watcher.count() {
        match watcher.kept(at) {
            Some(e) => all.push_str(format!(in alloc;
                " [{} {} {} {}]",
                e.step,
                act_name(e.act),
                e.old,
                e.new
            )?.as_str())?,
            None => all.push_str(" -")?,
        }
    }
    Ok(())
}

/// Of each watcher how many events it has heard and how it stands, then what it counts and keeps, unless it was dropped.
pub(crate) fn said(alloc: Global, all: &Watchers) -> Result<String, AllocError> {
    let mut text = String::new(alloc);
    for at in 0..all.len() {
        let row = all.row(at);
        if at > 0 {
            text.push_str("; ")?;
        }
        text.push_str(format!(in alloc; "{} {}", row.told, state_name(row.state))?.as_str())?;
        match all.watcher(at) {
            Some(watcher) => add_kept(&mut text, alloc, watcher)?,
            None => text.push_str(" dropped")?,
        }
    }
    Ok(text)
}
