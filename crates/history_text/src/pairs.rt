//! A list of pairs of numbers.
use lists::ListOf;

/// Pairs of numbers, in their order.
pub type NumberPairs = ListOf<(u64, u64)>;
