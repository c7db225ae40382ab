//! What the commands of a script ask of the step that isn't finished, and the shapes for which names stand.
#![tactic(auto)]

mod asking;
mod fault;
mod joining;
/// What numbers stand for, as functions whose contracts state it.
pub mod laws;
mod naming;
mod places;
mod version;

pub use asking::{removing, replacing};
pub use fault::{AskFault, ScriptCode, ScriptFault};
pub use joining::{merging, sewing_of};
pub use version::{Version, last_history, last_root};
