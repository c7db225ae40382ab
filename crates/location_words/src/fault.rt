//! Limits of words, and why a word is refused.

/// The greatest number of pairs of a word.
pub const MOST_PAIRS: usize = 4_096;

/// The greatest size of a power in a word: 2 to the 40.
pub const MOST_POWER: u128 = 1_099_511_627_776;

/// Why a word is refused.
#[derive(Clone, Copy, Debug, PartialEq, Eq)]
pub enum WordFault {
    /// The reduced word has more than 4,096 pairs: their number.
    Pairs(u128),
    /// A power of the reduced word has a size past 1,099,511,627,776: the size of the innermost such power.
    Power(u128),
    /// Want of memory.
    NoMemory,
}
