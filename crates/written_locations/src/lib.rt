//! The locations of a file that is written: its datums, and each further word once, in the order in which they first
//! occur.
#![tactic(auto)]

pub mod laws;
mod written;

pub use written::WrittenLocations;
