//! A command as a line spells it, before its numbers are held to the ranges of a file.
use lists::ListOf;
use orientation::{Kind, Turn};

/// A number of a record, perhaps with a sign joined before it.
#[derive(Clone, Copy)]
pub(crate) struct Mention {
    pub(crate) sign: Option<Turn>,
    pub(crate) number: u64,
}

/// Numbers of records as they are spelled, in their order.
pub(crate) type Mentions = ListOf<Mention>;

/// What the words of a line say. A place and a location are there where they are spelled.
#[derive(Drop)]
pub(crate) enum Phrase {
    Replace {
        source: Mention,
        place: Option<u64>,
        target: Mention,
        location: Option<u64>,
    },
    Remove {
        source: Mention,
        place: Option<u64>,
    },
    Merge(Mentions),
    Sew(Mentions),
    Apply,
    Undo,
    Until(Kind),
    Prune,
    OutputFirst,
}
