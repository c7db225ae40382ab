//! Walks in graphs: depth first search for the first cycle, orders of finishing and ranks.
#![tactic(auto)]

mod depth_first;
mod graph;
pub mod laws;
mod marking;
mod ranking;

pub use depth_first::{Found, has_cycle, search};
pub use graph::Graph;
pub use marking::mark_reaching;
pub use ranking::ranks;
