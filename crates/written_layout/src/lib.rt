//! The written layout of a file: the version line, the locations and the tables before the records, headings, and uses,
//! handed to what takes bytes.
#![tactic(auto)]

mod beginning;
pub mod laws;
mod lines;
mod locations;
mod tables;

pub use beginning::push_beginning;
pub use lines::{push_heading, push_use};
