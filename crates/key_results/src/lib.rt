//! The relative results of the keys of a step: what a list of visits denotes, how it is weighed, and how its nodes are
//! made in a pool.
#![tactic(auto)]

mod answer;
mod derive;
mod fault;
mod images;
mod key;
mod parts;
mod rebuild;
mod rewritten;
mod weighing;
mod words;

/// The laws of derivations, as functions whose contracts state them.
pub mod laws;

pub use answer::answer_of;
pub use derive::{Link, Outcome, Visit};
pub use fault::{ApplyFault, LimitKind, limit};
pub use images::{add_unseen, pairs_of};
pub use key::Key;
pub use parts::{Outgrowth, Part, outgrowths_of, root_parts};
pub use rebuild::{new_root, nodes_of};
pub use rewritten::Rewritten;
pub use weighing::{Weight, Weights, weigh};
pub use words::{IDENTITY, Mover, accumulated, no_mover, undone};
