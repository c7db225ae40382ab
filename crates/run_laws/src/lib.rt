//! What is known of all ways to carry out one script: they agree.
#![tactic(auto)]

/// Laws of runs, as functions whose contracts state them.
pub mod laws;
