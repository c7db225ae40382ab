//! Words of locations: reduced products of powers of datums, and a table that numbers them.
#![tactic(auto)]

mod fault;
mod pair;
mod powers;
mod products;
mod room;
mod sum;
mod table;
mod word;
mod word_traits;

/// The laws of words, as functions whose contracts state them.
pub mod laws;

pub use fault::{MOST_PAIRS, MOST_POWER, WordFault};
pub use pair::Pair;
pub use powers::power;
pub use products::{mul, product};
pub use room::mul_into;
pub use table::{WordId, Words};
pub use word::{Word, inverse};
