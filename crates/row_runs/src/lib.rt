//! Runs of the whole program over a desk in memory, for programs that answer rows.
#![tactic(auto)]

mod runs;

pub use runs::{desk_of, ran, words_of};
