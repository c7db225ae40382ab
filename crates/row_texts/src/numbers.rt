//! Numbers that stand in orders.
use std::alloc::{AllocError, Global};

/// A number and what follows behind one space.
pub fn number_and_rest(text: &str) -> Option<(u64, &str)> {
    let (word, rest) = text.split_once(' ').unwrap_or((text, ""));
    let number = word.parse::<u64>().ok()?;
    Some((number, rest))
}

/// The numbers among the words.
pub fn numbers_of(alloc: Global, text: &str) -> Result<Vec<u64>, AllocError> {
    let mut numbers = Vec::new(alloc);
    for word in text.split(' ') {
        if let Ok(number) = word.parse::<u64>() {
            numbers.push(number)?;
        }
    }
    Ok(numbers)
}

/// The bytes whose numbers are among the words.
pub(crate) fn bytes_of(alloc: Global, text: &str) -> Result<Vec<u8>, AllocError> {
    let mut bytes = Vec::new(alloc);
    for word in text.split(' ') {
        if let Ok(byte) = word.parse::<u8>() {
            bytes.push(byte)?;
        }
    }
    Ok(bytes)
}
