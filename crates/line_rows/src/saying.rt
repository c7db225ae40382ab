//! Answers: words with a blank before each.

use std::alloc::{AllocError, Global};

/// Appends a word.
pub fn add(said: &mut String, word: &str) -> Result<(), AllocError> {
    said.push_str(" ")?;
    said.push_str(word)
}

/// Appends a number.
pub fn add_number(said: &mut String, alloc: Global, n: u64) -> Result<(), AllocError> {
    add(said, format!(in alloc; "{n}")?.as_str())
}
