//! Answers rows of watchers that are told events.
#![tactic(auto)]

mod events;
mod saying;
mod stopping;

use events::event_of;
use saying::said;
use std::alloc::{AllocError, Global};
use std::io;
use stopping::{EnoughAt, ShortAt};
use watchers::{Counter, PairList, Watcher, Watchers};

/// What stands for a watcher in a row: its name, and a number where it has one.
fn named(text: &str) -> (&str, u64) {
    match text.trim().split_once(' ') {
        Some((name, number)) => (name, number.parse::<u64>().unwrap_or(0)),
        None => (text.trim(), 0),
    }
}

/// The answer to a row: what became of its watchers after its events.
fn answer(alloc: Global, names: &str, events: &str) -> Result<String, AllocError> {
    let mut list: Vec<Box<dyn Watcher>> = Vec::new(alloc);
    for text in names.split(',') {
        let (name, number) = named(text);
        match name.as_bytes() {
            b"counter" => list.push(Box::new(alloc, Counter::new())?)?,
            b"list" => list.push(Box::new(alloc, PairList::new(alloc))?)?,
            b"enough" => list.push(Box::new(alloc, EnoughAt::new(number))?)?,
            b"short" => list.push(Box::new(alloc, ShortAt::new(number))?)?,
            _ => {}
        }
    }
    let mut all = Watchers::new(alloc, list)?;
    for text in events.split(',') {
        if let Some(event) = event_of(text) {
            all.tell(event);
        }
    }
    said(alloc, &all)
}

/// Prints a note as it is, and a row with its answer.
fn print_line(rt: &(impl Print + AllocGlobal), line: &str) -> io::Result<()> {
    match line.split_once(':') {
        Some((names, events)) if !line.starts_with('#') => match answer(rt.alloc(), names, events) {
            Ok(text) => println!(rt; "{line} -> {}", text.as_str()),
            Err(_) => println!(rt; "{line} -> no memory"),
        },
        _ => println!(rt; "{line}"),
    }
}

fn main(rt: HostRuntime) -> io::Result<()> {
    for line in rt.lines(rt.alloc()) {
        print_line(&rt, line?.as_str())?;
    }
    Ok(())
}
