//! Commands in words: a turn by its sign, and `.` for what isn't said.

use crate::saying::{add, add_number};
use orientation::{Turn, kind_name, sign};
use script_text::{Command, LineFault, Names, Sel, SignedName, SignedNames, Tgt};
use std::alloc::{AllocError, Global};

/// Appends a number behind the sign of its turn, or behind `.` where none is said.
fn add_turned(
    said: &mut String,
    alloc: Global,
    turn: Option<Turn>,
    name: u32,
) -> Result<(), AllocError> {
    let sign = match turn {
        None => '.',
        Some(turn) => char::from(sign(turn)),
    };
    add(said, format!(in alloc; "{sign}{name}")?.as_str())
}

/// Appends which records a command asks to change.
fn add_asked(said: &mut String, alloc: Global, sel: &Sel) -> Result<(), AllocError> {
    add_turned(said, alloc, sel.turn, sel.name)?;
    match sel.place {
        None => add(said, "."),
        Some(place) => add_number(said, alloc, u64::from(place)),
    }
}

/// Appends what a command puts in their place.
fn add_target(said: &mut String, alloc: Global, tgt: &Tgt) -> Result<(), AllocError> {
    add_turned(said, alloc, Some(tgt.turn), tgt.name)?;
    add_number(said, alloc, u64::from(tgt.location))
}

/// Appends the records of a merging.
fn add_names(said: &mut String, alloc: Global, names: &Names) -> Result<(), AllocError> {
    for name in names.as_slice() {
        add_number(said, alloc, u64::from(*name))?;
    }
    Ok(())
}

/// Appends the records of a sewing with their signs.
fn add_signed(said: &mut String, alloc: Global, names: &SignedNames) -> Result<(), AllocError> {
    for SignedName { name, turn } in names.as_slice() {
        add_turned(said, alloc, Some(*turn), *name)?;
    }
    Ok(())
}

/// Appends a command.
pub fn add_command(said: &mut String, alloc: Global, command: &Command) -> Result<(), AllocError> {
    match command {
        Command::Replace { sel, tgt } => {
            add(said, "replace")?;
            add_asked(said, alloc, sel)?;
            add_target(said, alloc, tgt)
        }
        Command::Remove { sel } => {
            add(said, "remove")?;
            add_asked(said, alloc, sel)
        }
        Command::Merge(names) => {
            add(said, "merge")?;
            add_names(said, alloc, names)
        }
        Command::Sew(names) => {
            add(said, "sew")?;
            add_signed(said, alloc, names)
        }
        Command::Apply => add(said, "apply"),
        Command::Undo => add(said, "undo"),
        Command::Until(kind) => {
            add(said, "until")?;
            add(said, str::from_utf8(kind_name(*kind)).unwrap_or("?"))
        }
        Command::Prune => add(said, "prune"),
        Command::OutputFirst => add(said, "output first"),
    }
}

/// Appends why a line is refused.
pub fn add_fault(said: &mut String, alloc: Global, fault: LineFault) -> Result<(), AllocError> {
    match fault {
        LineFault::Syntax => add(said, "syntax"),
        LineFault::NoSuchShape(n) => {
            add(said, "no-such-shape")?;
            add_number(said, alloc, n)
        }
        LineFault::NoSuchLocation(n) => {
            add(said, "no-such-location")?;
            add_number(said, alloc, n)
        }
        LineFault::NoMemory => add(said, "no memory"),
    }
}
