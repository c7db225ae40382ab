//! A file of shared shapes that are drawn, with a script for it: a large and well shared input for trials.
#![tactic(auto)]

mod draws;
mod file;
mod generated;
mod levels;
mod records;
mod words;

/// The laws of draws, as a function whose contract states them.
pub mod laws;

pub use generated::{Generated, generate};
