//! A list of numbers.
use lists::ListOf;

/// Numbers, in their order.
pub type Numbers = ListOf<u64>;
