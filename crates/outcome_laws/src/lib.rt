//! What is known of the answers of a run and of what it writes: there is one of each, in whatever order its requests
//! come.
#![tactic(auto)]

/// Laws of outcomes, as functions whose contracts state them.
pub mod laws;
