//! The occurrences of an expansion, one after another: those of a kind, neither of a kind that is avoided nor below
//! one.
#![tactic(auto)]

mod entering;
mod explorer;
mod found;
mod giving;
mod trail;

/// The laws of walks, as functions whose contracts state them.
pub mod laws;

pub use explorer::Explorer;
pub use found::{Found, WordLimit};
