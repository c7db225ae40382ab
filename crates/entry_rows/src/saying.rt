//! Answers: words with a blank before each.
ghost use Rattle.std.specs.Prelude.{IsTrue};
ghost use Rattle.curve_tables.specs.Shapes.{AreTexts};
ghost use Rattle.entry_readers.specs.Spelled.{AreShort};

use crate::reading::Stop;
use brep_tokens::{Decimals, ReadFault, TokenText};
use entry_readers::number_text;
use std::alloc::{AllocError, Global};

/// Appends a word.
pub fn add(said: &mut String, word: &str) -> Result<(), AllocError> {
    said.push_str(" ")?;
    said.push_str(word)
}

/// Appends bytes of text.
pub fn add_bytes(said: &mut String, bytes: &[u8]) -> Result<(), AllocError> {
    add(said, str::from_utf8(bytes).unwrap_or("?"))
}

/// Appends a number.
pub fn add_number(said: &mut String, n: u64) -> Result<(), AllocError> {
    add_bytes(said, number_text(n).bytes())
}

/// Appends a token.
pub fn add_token(said: &mut String, text: &TokenText) -> Result<(), AllocError> {
    add_bytes(said, text.bytes())
}

/// Appends decimals.
pub fn add_texts(said: &mut String, texts: &Decimals) -> Result<(), AllocError> {
    for at in 0..texts.len() {
        add_bytes(said, texts.get(at).unwrap_or(b"none"))?;
    }
    Ok(())
}

/// Appends the code of a fault, its offset, its value and its limit.
pub fn add_fault(said: &mut String, alloc: Global, fault: &ReadFault) -> Result<(), AllocError> {
    add(said, format!(in alloc; "{:?}", fault.code)?.as_str())?;
    add_number(said, fault.offset)?;
    add_number(said, fault.value)?;
    add_number(said, fault.limit)
}

/// Appends why nothing is read.
pub fn add_stop(said: &mut String, alloc: Global, stop: &Stop) -> Result<(), AllocError> {
    match stop {
        Stop::NoneDue => add(said, "none due"),
        Stop::Long => add(said, "too long"),
        Stop::More => add(said, "more"),
        Stop::NoMemory => add(said, "no memory"),
        Stop::Fault(fault) => add_fault(said, alloc, fault),
    }
}

/// The answer that says why nothing is read.
pub fn stopped(alloc: Global, stop: &Stop) -> Result<String, AllocError> {
    let mut said = String::new(alloc);
    add_stop(&mut said, alloc, stop)?;
    Ok(said)
}

/// An answer that begins with a count.
pub fn counted(alloc: Global, count: u64) -> Result<String, AllocError> {
    let mut said = String::new(alloc);
    add_number(&mut said, count)?;
    said.push_str(":")?;
    Ok(said)
}

/// The answer to a row that isn't understood.
pub fn unknown(alloc: Global) -> Result<String, AllocError> {
    String::from_str(alloc, "?")
}

/// Does each fit a token?
pub fn short(texts: &Decimals) -> bool
    ensures { IsTrue result → AreShort texts.now }
{
    for at in 0..texts.len() {
        match texts.get(at) {
            Some(text) => {
                if text.len() > 128 {
                    return false;
                }
            }
            None => return false,
        }
    }
    true
}

/// Are there so many, and fits each a token?
pub fn texts(n: u64, texts: &Decimals) -> bool
    ensures { IsTrue result → AreTexts n texts.now }
{
    texts.len() as u64 == n && short(texts)
}
