//! The history over several steps: the one over no step, with which it begins, and those of two histories in a row.
#![tactic(auto)]

mod in_row;
mod joined;
pub mod laws;
mod no_step;

pub use in_row::chain;
pub use no_step::start;
