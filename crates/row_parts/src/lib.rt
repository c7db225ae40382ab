//! Rows that programs answer: what a row is split into, and how texts stand in it.
#![tactic(auto)]

mod escapes;
mod rows;
mod runs;

pub use escapes::{shown, unescaped};
pub use rows::{Row, row_of, text_of};
