//! How words and trees stand in rows that programs answer, and the trees of plain records.
#![tactic(auto)]

mod reading;
mod record_trees;
mod saying;
mod tree_text;
mod word_text;

pub use reading::{
    Missed, counted, cut, cut_if, digits, join, kind, number, said, signed, small, yes,
};
pub use record_trees::record_tree;
pub use saying::{push_kind, root_said, tree_said};
pub use tree_text::{Kinds, tree, turn_at, without_sign};
pub use word_text::{fault_said, outcome, place, word, word_said};
