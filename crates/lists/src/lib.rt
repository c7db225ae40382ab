//! Lists over `Vec`, which contracts see as the lists of their items, and what is said of lists by more than one crate.
#![tactic(auto)]

mod list_of;

pub use list_of::ListOf;
