//! Histories that are written over a desk in memory.
ghost use Rattle.std.specs.Prelude.{◌<◌};

use crate::saying::{add, add_number};
use brep_desk::{Chan, Desk, MemoryDesk};
use history_text::{HistoryFile, emit};
use std::alloc::{AllocError, Global};

/// So many bytes, from 1 to a million; a thousand for any other number.
fn piece_of(bytes: u64) -> usize
    ensures { 0 < result }
{
    if bytes == 0 || bytes > 1_000_000 {
        1_000
    } else {
        bytes as usize
    }
}

/// A desk that moves so many bytes a call, and whose call of this number fails.
pub fn desk_of(alloc: Global, bytes: u64, fails: Option<u64>) -> Result<MemoryDesk, AllocError> {
    let mut failing = Vec::new(alloc);
    if let Some(call) = fails {
        failing.push(call)?;
    }
    Ok(MemoryDesk::new(alloc, Vec::new(alloc), failing, piece_of(bytes)))
}

/// Appends in how many bytes a history is written over a channel, or behind how many the writing stops.
fn add_emitted(
    said: &mut String,
    alloc: Global,
    history: &HistoryFile,
    desk: &mut MemoryDesk,
    c: Chan,
) -> Result<(), AllocError> {
    match emit(history, desk, c) {
        Ok(size) => {
            add(said, "whole")?;
            add_number(said, alloc, size)?;
        }
        Err(stop) => {
            add(said, "stopped")?;
            add_number(said, alloc, stop.taken)?;
        }
    }
    said.push_str(";")
}

/// Appends what is written, where it was begun.
fn add_written(said: &mut String, desk: &MemoryDesk) -> Result<(), AllocError> {
    match desk.written("out") {
        Some(bytes) => add(said, str::from_utf8(bytes).unwrap_or("?")),
        None => add(said, "none"),
    }
}

/// A history that is written once: its size and its text; the failed calls.
pub fn once(
    alloc: Global,
    history: &HistoryFile,
    desk: &mut MemoryDesk,
) -> Result<String, AllocError> {
    let mut said = String::new(alloc);
    match desk.begin_write("out") {
        Err(_) => add(&mut said, "not begun")?,
        Ok(c) => {
            add_emitted(&mut said, alloc, history, desk, c)?;
            add(&mut said, "faults")?;
            add_number(&mut said, alloc, desk.faults())?;
            said.push_str(":")?;
            add_written(&mut said, desk)?;
        }
    }
    Ok(said)
}

/// A history that is written twice: the sizes; the failed calls.
pub fn twice(
    alloc: Global,
    history: &HistoryFile,
    desk: &mut MemoryDesk,
) -> Result<String, AllocError> {
    let mut said = String::new(alloc);
    match desk.begin_write("out") {
        Err(_) => add(&mut said, "not begun")?,
        Ok(c) => {
            add_emitted(&mut said, alloc, history, desk, c)?;
            add_emitted(&mut said, alloc, history, desk, c)?;
            add(&mut said, "faults")?;
            add_number(&mut said, alloc, desk.faults())?;
        }
    }
    Ok(said)
}

/// Is the history written as this text?
pub fn is_written_as(alloc: Global, history: &HistoryFile, text: &str) -> Result<bool, AllocError> {
    let mut desk = desk_of(alloc, 1_000, None)?;
    match desk.begin_write("out") {
        Err(_) => Ok(false),
        Ok(c) => {
            let whole = emit(history, &mut desk, c).is_ok();
            Ok(whole && stands(&desk, text))
        }
    }
}

/// Does this text stand there?
fn stands(desk: &MemoryDesk, text: &str) -> bool {
    match desk.written("out") {
        Some(bytes) => *bytes == *text.as_bytes(),
        None => false,
    }
}
