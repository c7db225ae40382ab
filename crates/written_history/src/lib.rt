//! The history of a root in numbers, as a history file tells it: input shapes go by the numbers of their records, and
//! written ones by the numbers with which they are written.
#![tactic(auto)]

mod ascending;
/// What the numbers stand for, as functions whose contracts state it.
pub mod laws;
mod told;

pub use told::history_in_numbers;
