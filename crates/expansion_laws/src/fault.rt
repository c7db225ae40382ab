//! Why an expansion or a rewriting of plain trees is refused.

use location_words::WordFault;

/// Why an expansion or a rewriting of plain trees is refused.
#[derive(Clone, Copy, Debug, PartialEq, Eq)]
pub enum ExpandFault {
    /// There is more to do than the budget allows.
    TooBig,
    /// A word that is past the limits of words: by its pairs or by a power.
    Word(WordFault),
    /// Want of memory.
    NoMemory,
}
