//! A file in a pool: its records as nodes, and the words of its locations in a table.
#![tactic(auto)]

/// The laws of what is loaded, as functions whose contracts state them.
pub mod laws;
mod loading;
mod places;

pub use loading::load_file;
