//! The lines of written records' heads, with the locations in their data numbered as they are written.
#![tactic(auto)]

mod adding;
mod edges;
mod fields;
mod heads;
pub mod laws;
mod points;

pub use adding::add_head_locations;
pub use heads::{push_head, push_head_as};
