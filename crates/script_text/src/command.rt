//! The commands of a script.
use crate::name_lists::{Names, SignedNames};
use orientation::{Kind, Turn};

/// A record that is named, perhaps with the turn that is asked for, and the number of the place where alone it is
/// meant.
#[derive(Clone, Copy)]
pub struct Sel {
    pub name: u32,
    pub turn: Option<Turn>,
    pub place: Option<u32>,
}

/// A record that stands in place of another, with its turn and the number of its location.
#[derive(Clone, Copy)]
pub struct Tgt {
    pub name: u32,
    pub turn: Turn,
    pub location: u32,
}

/// A record that is named with a turn.
#[derive(Clone, Copy)]
pub struct SignedName {
    pub name: u32,
    pub turn: Turn,
}

/// What a line of a script asks for.
#[derive(Drop)]
pub enum Command {
    Replace { sel: Sel, tgt: Tgt },
    Remove { sel: Sel },
    /// Two names or more, none of them twice.
    Merge(Names),
    /// Two names or more, none of them twice. The turn of the first is forward, that of each other one forward or
    /// reversed.
    Sew(SignedNames),
    /// The end of a step.
    Apply,
    /// Takes back the unfinished step, or else the last one.
    Undo,
    /// Sets the stop kind of the unfinished step; the last such line of a step counts.
    Until(Kind),
    /// Sets the prune mark of the unfinished step.
    Prune,
    /// The output is written in version 1. It concerns the whole run and isn't taken back.
    OutputFirst,
}

/// Why a line gives no command.
#[derive(Clone, Copy, Debug, PartialEq, Eq)]
pub enum LineFault {
    /// The line spells no command.
    Syntax,
    /// The leftmost number out of range is this number of a record.
    NoSuchShape(u64),
    /// The leftmost number out of range is this number of a location.
    NoSuchLocation(u64),
    NoMemory,
}
