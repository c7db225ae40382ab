//! Turns (orientations of uses), kinds of shapes and the rule of a step: what every other crate says about them.
#![tactic(auto)]

mod kind;
mod rule;
mod turn;

/// The laws of turns, as functions whose contracts state them.
pub mod laws;

pub use kind::{Kind, below, kind_name, kind_of_name};
pub use rule::Rule;
pub use turn::{Turn, compose, of_sign, reverse, sign};
