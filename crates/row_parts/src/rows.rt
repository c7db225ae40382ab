//! A row `WORD NUMBER..: TEXT`.

use crate::escapes::unescaped;
use crate::runs::{worth, written_out};
use std::alloc::{AllocError, Global};

/// What a row asks, up to three numbers, and its text as it stands.
#[derive(Clone, Copy)]
pub struct Row<'a> {
    pub word: &'a str,
    pub first: Option<u64>,
    pub second: Option<u64>,
    pub third: Option<u64>,
    pub text: &'a str,
}

/// The parts of a row. The text begins behind the colon and one space.
pub fn row_of<'a>(line: &'a str) -> Option<Row<'a>> {
    let (head, text) = line.split_once(':')?;
    let mut words = head.split_whitespace();
    Some(Row {
        word: words.next()?,
        first: words.next().map(worth),
        second: words.next().map(worth),
        third: words.next().map(worth),
        text: text.strip_prefix(' ').unwrap_or(text),
    })
}

/// A row's text with its runs written out and with the characters that it stands for.
pub fn text_of(alloc: Global, row: &Row<'_>) -> Result<String, AllocError> {
    let text = written_out(alloc, row.text)?;
    unescaped(alloc, text.as_str())
}
