//! The version line and the tokens of a BREP text, the forms that tokens have, and the faults of reading.
#![tactic(auto)]

mod bytes;
mod decimal_form;
mod decimals;
mod fault;
mod forms;
pub mod laws;
mod numbers;
mod scanner;
mod text;
mod text_words;
mod version;

pub use decimal_form::decimal;
pub use decimals::{Decimals, first_text};
pub use fault::{Progress, ReadCode, ReadFault, ReadStop};
pub use forms::{continuity, flag, number, power, use_sign};
pub use numbers::Numbers;
pub use scanner::{Next, Scanner};
pub use text::{Token, TokenText};
