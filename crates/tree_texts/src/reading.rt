//! How the words of rows are read, and answers of one word.
use orientation::{Kind, kind_of_name};
use std::alloc::{AllocError, AllocFailed, Global};

/// Why a row has no answer: it can't be understood, or memory is wanting.
#[derive(Drop)]
pub enum Missed {
    Unclear,
    NoMemory,
}

impl From<AllocError> for Missed {
    fn from(_: AllocError) -> Missed {
        Missed::NoMemory
    }
}

impl<T: Drop> From<AllocFailed<T>> for Missed {
    fn from(_: AllocFailed<T>) -> Missed {
        Missed::NoMemory
    }
}

/// What stands before and after the first such mark.
pub fn cut<'a>(text: &'a str, mark: &str) -> Result<(&'a str, &'a str), Missed> {
    match text.split_once(mark) {
        Some(parts) => Ok(parts),
        None => Err(Missed::Unclear),
    }
}

/// What stands before the first such mark, and what after it, if there is one.
pub fn cut_if<'a>(text: &'a str, mark: &str) -> (&'a str, Option<&'a str>) {
    match text.split_once(mark) {
        Some((front, back)) => (front, Some(back)),
        None => (text, None),
    }
}

/// A number.
pub fn number(text: &str) -> Result<u64, Missed> {
    match brep_tokens::number(text.as_bytes()) {
        Some(n) => Ok(n),
        None => Err(Missed::Unclear),
    }
}

/// A number of 32 bits, by its digits.
pub fn digits(text: &[u8]) -> Result<u32, Missed> {
    let Some(number) = brep_tokens::number(text) else {
        return Err(Missed::Unclear);
    };
    match u32::try_from(number) {
        Ok(n) => Ok(n),
        Err(_) => Err(Missed::Unclear),
    }
}

/// A number of 32 bits.
pub fn small(text: &str) -> Result<u32, Missed> {
    digits(text.as_bytes())
}

/// A number, or one after `-`.
pub fn signed(text: &str) -> Result<i64, Missed> {
    match brep_tokens::power(text.as_bytes()) {
        Some(p) => Ok(p),
        None => Err(Missed::Unclear),
    }
}

/// The kind of a name of two letters.
pub fn kind(name: &[u8]) -> Result<Kind, Missed> {
    match kind_of_name(name) {
        Some(kind) => Ok(kind),
        None => Err(Missed::Unclear),
    }
}

/// A text as an answer.
pub fn said(alloc: Global, text: &str) -> Result<String, Missed> {
    Ok(String::from_str(alloc, text)?)
}

/// A number as an answer.
pub fn counted(alloc: Global, n: u64) -> Result<String, Missed> {
    Ok(format!(in alloc; "{n}")?)
}

/// Yes or no.
pub fn yes(alloc: Global, holds: bool) -> Result<String, Missed> {
    if holds {
        return said(alloc, "yes");
    }
    said(alloc, "no")
}

/// Appends an answer to those before it.
pub fn join(answers: &mut String, mark: &str, answer: &str) -> Result<(), AllocError> {
    if !answers.is_empty() {
        answers.push_str(mark)?;
    }
    answers.push_str(answer)
}
