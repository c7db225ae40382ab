//! Entries of tables that are read from the words of a text. The offset of each token is its place.

use brep_tokens::{Progress, ReadFault, ReadStop, Token, TokenText};
use entry_readers::{EntryReader, Section};
use lists::ListOf;
use std::alloc::Global;

/// Why nothing is read.
#[derive(Clone, Copy)]
pub enum Stop {
    /// No entry is due.
    NoneDue,
    /// A word has more than 128 bytes.
    Long,
    /// The text ends first.
    More,
    NoMemory,
    Fault(ReadFault),
}

impl From<ReadStop> for Stop {
    fn from(stop: ReadStop) -> Stop {
        match stop {
            ReadStop::Fault(fault) => Stop::Fault(fault),
            ReadStop::NoMemory => Stop::NoMemory,
        }
    }
}

/// A word as a token.
pub fn token(offset: u64, word: &str) -> Result<Token, Stop> {
    if word.len() > 128 {
        return Err(Stop::Long);
    }
    Ok(Token {
        offset,
        text: TokenText::of(word.as_bytes()),
    })
}

/// The entry and the number of its tokens.
pub fn entry<R: EntryReader>(reader: R, text: &str) -> Result<(R::Entry, u64), Stop>
    requires { R.waits reader }
{
    let mut reader = reader;
    let mut offset = 0u64;
    for word in text.split_whitespace() {
        let token = token(offset, word)?;
        offset = offset.saturating_add(1);
        match reader.take_token(&token) {
            Ok(Progress::More) => {}
            Ok(Progress::Whole) => return Ok((reader.finish(), offset)),
            Err(stop) => return Err(Stop::from(stop)),
        }
    }
    Err(Stop::More)
}

/// So many entries and the number of their tokens.
pub fn entries<R: EntryReader>(
    alloc: Global,
    due: u64,
    text: &str,
) -> Result<(ListOf<R::Entry>, u64), Stop> {
    if due == 0 {
        return Err(Stop::NoneDue);
    }
    let mut section = Section::<R>::new(alloc, due);
    let mut offset = 0u64;
    for word in text.split_whitespace() {
        let token = token(offset, word)?;
        offset = offset.saturating_add(1);
        match section.take(&token) {
            Ok(Progress::More) => {}
            Ok(Progress::Whole) => return Ok((ListOf::from_vec(section.done()), offset)),
            Err(stop) => return Err(Stop::from(stop)),
        }
    }
    Err(Stop::More)
}
