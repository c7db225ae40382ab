//! Trees of shapes, the expansion of a file, the rule of rewriting, and the laws between them.
#![tactic(auto)]

mod expansion;
mod fault;
pub mod laws;
mod moving;
mod plain;
mod records;
mod requests;
mod rewriting;

pub use expansion::expand;
pub use fault::ExpandFault;
pub use plain::{Tree, TreeUse, same_tree};
pub use records::{PlainRecord, PlainUse, PlainUses};
pub use requests::SlowRequest;
pub use rewriting::rewrite_slow;
