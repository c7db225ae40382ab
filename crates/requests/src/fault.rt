//! Why a request isn't taken, and why a step isn't carried out.
use crate::walk::Walk;
use std::fmt::{Debug, Display, Formatter, Result as FmtResult, Write};
use thiserror::Error;

/// Why a request isn't taken into a table, which then stays as it was.
#[derive(Clone, Copy, Debug, PartialEq, Eq)]
pub enum AddFault {
    /// The target doesn't fit the source: neither has it the source's kind, nor is its kind higher with uses of the
    /// source's kind alone.
    KindMismatch,
    /// Want of memory.
    NoMemory,
}

/// Why a step isn't carried out.
#[derive(Drop, Error)]
pub enum CheckFault {
    /// The graph of the step has a cycle. This is the first one by its origins, the first of them again at its end.
    #[error("the graph of the step has a cycle")]
    Cycle(Walk),
    /// The graph has no cycle, and a walk of so many edges, which is more than 1,024.
    #[error("the rank of the step is {0}")]
    Rank(u64),
    /// Want of memory.
    #[error("no memory")]
    NoMemory,
}

/// The same text as for people.
impl Debug for CheckFault {
    fn fmt<W: Write>(&self, f: &mut Formatter<W>) -> FmtResult {
        Display::fmt(self, f)
    }
}
