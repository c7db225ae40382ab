//! The writer: how a root of a pool is written, by the written layout, in the version of its file or in version 1, over
//! a channel of a desk, without a whole text in memory.
#![tactic(auto)]

/// The laws of what is written, as functions whose contracts state them.
pub mod laws;
mod locations;
mod plan;
mod putting;
mod source;

pub use plan::WritePlan;
