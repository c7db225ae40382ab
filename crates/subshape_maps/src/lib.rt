//! The shapes of a tree's expansion: each tree under each accumulated word once, and which shapes stand above which.
#![tactic(auto)]

mod above;
mod fault;
mod joining;
mod listing;
mod meeting;
mod noting;
mod shape;

pub use above::{AboveOne, AncestorMap, ancestors};
pub use fault::{MOST_ABOVE, MOST_SHAPES, MapFault};
pub use listing::map_shapes;
pub use shape::{ShapeAt, ShapeMap};
