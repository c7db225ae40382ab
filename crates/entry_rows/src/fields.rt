//! Rows of fields, taken token by token and spelled again. The offset of each token is its place.

use crate::reading::{Stop, token};
use crate::saying::{add, add_number, add_texts, add_token, stopped};
use entry_readers::{
    DecimalsDue, HeaderSpell, KnotsDue, KnotsSpell, NumbersDue, NumbersSpell, decimal_due,
    flag_due, number_due, ranged_due, word_due,
};
use row_parts::Row;
use std::alloc::{AllocError, Global};

/// The answer to a row of this module.
pub fn answer(alloc: Global, row: &Row<'_>, text: &str) -> Result<Option<String>, AllocError> {
    let first = row.first.unwrap_or(0);
    let said = match row.word {
        "decimals" => decimals_said(alloc, first, text)?,
        "numbers" => {
            let high = row.second.unwrap_or(0);
            numbers_said(alloc, first, high, row.third.unwrap_or(0), text)?
        }
        "knots" => knots_said(alloc, first, text)?,
        "decimal-due" => done_said(alloc, decimal_taken(text))?,
        "word-due" => done_said(alloc, word_taken(text))?,
        "flag-due" => flag_said(alloc, flag_taken(text))?,
        "number-due" => number_said(alloc, number_taken(text))?,
        "ranged-due" => number_said(alloc, ranged_taken(first, row.second.unwrap_or(0), text))?,
        "header" => header_said(alloc, first, text)?,
        _ => return Ok(None),
    };
    Ok(Some(said))
}

/// So many decimals.
fn decimals_read(alloc: Global, due: u64, text: &str) -> Result<DecimalsDue, Stop> {
    let mut reader = DecimalsDue::new(alloc, due);
    let mut offset = 0u64;
    for word in text.split_whitespace() {
        let token = token(offset, word)?;
        offset = offset.saturating_add(1);
        if reader.due > 0 {
            reader.take(&token)?;
        }
    }
    Ok(reader)
}

/// The decimals, and how many are still due.
fn decimals_said(alloc: Global, due: u64, text: &str) -> Result<String, AllocError> {
    match decimals_read(alloc, due, text) {
        Err(stop) => stopped(alloc, &stop),
        Ok(reader) => {
            let mut said = String::new(alloc);
            add_texts(&mut said, &reader.texts)?;
            add(&mut said, "due")?;
            add_number(&mut said, reader.due)?;
            Ok(said)
        }
    }
}

/// So many numbers of a range.
fn numbers_read(
    alloc: Global,
    low: u64,
    high: u64,
    due: u64,
    text: &str,
) -> Result<NumbersDue, Stop> {
    let mut reader = NumbersDue::new(alloc, low, high, due);
    let mut offset = 0u64;
    for word in text.split_whitespace() {
        let token = token(offset, word)?;
        offset = offset.saturating_add(1);
        if reader.due > 0 {
            reader.take(&token)?;
        }
    }
    Ok(reader)
}

/// The numbers, spelled again, and how many are still due.
fn numbers_said(
    alloc: Global,
    low: u64,
    high: u64,
    due: u64,
    text: &str,
) -> Result<String, AllocError> {
    match numbers_read(alloc, low, high, due, text) {
        Err(stop) => stopped(alloc, &stop),
        Ok(reader) => {
            let mut said = String::new(alloc);
            for text in NumbersSpell::new(&reader.numbers) {
                add_token(&mut said, &text)?;
            }
            add(&mut said, "due")?;
            add_number(&mut said, reader.due)?;
            Ok(said)
        }
    }
}

/// So many decimals with their numbers.
fn knots_read(alloc: Global, due: u64, text: &str) -> Result<KnotsDue, Stop> {
    let mut reader = KnotsDue::new(alloc, due);
    let mut offset = 0u64;
    for word in text.split_whitespace() {
        let token = token(offset, word)?;
        offset = offset.saturating_add(1);
        if !reader.is_done() {
            reader.take(&token)?;
        }
    }
    Ok(reader)
}

/// How many decimals and how many numbers are read, how many pairs are still due, and whether a number is due next.
fn knots_said(alloc: Global, due: u64, text: &str) -> Result<String, AllocError> {
    match knots_read(alloc, due, text) {
        Err(stop) => stopped(alloc, &stop),
        Ok(reader) => {
            let mut said = String::new(alloc);
            add_number(&mut said, reader.texts.len() as u64)?;
            add(&mut said, "texts")?;
            add_number(&mut said, reader.counts.len() as u64)?;
            add(&mut said, "counts, due")?;
            add_number(&mut said, reader.due)?;
            add(
                &mut said,
                if reader.half {
                    "from a number"
                } else {
                    "from a decimal"
                },
            )?;
            Ok(said)
        }
    }
}

/// Is the text a decimal?
fn decimal_taken(text: &str) -> Result<(), Stop> {
    decimal_due(&token(0, text)?).map_err(Stop::Fault)
}

/// Is the text the word `p`?
fn word_taken(text: &str) -> Result<(), Stop> {
    word_due(b"p", &token(0, text)?).map_err(Stop::Fault)
}

/// The flag that the text is.
fn flag_taken(text: &str) -> Result<bool, Stop> {
    flag_due(&token(0, text)?).map_err(Stop::Fault)
}

/// The number that the text spells.
fn number_taken(text: &str) -> Result<u64, Stop> {
    number_due(&token(0, text)?).map_err(Stop::Fault)
}

/// The number of a range that the text spells.
fn ranged_taken(low: u64, high: u64, text: &str) -> Result<u64, Stop> {
    ranged_due(low, high, &token(0, text)?).map_err(Stop::Fault)
}

/// Is a token taken, or why is it refused?
fn done_said(alloc: Global, done: Result<(), Stop>) -> Result<String, AllocError> {
    match done {
        Err(stop) => stopped(alloc, &stop),
        Ok(()) => String::from_str(alloc, "taken"),
    }
}

/// The flag of a token, or why it is refused.
fn flag_said(alloc: Global, read: Result<bool, Stop>) -> Result<String, AllocError> {
    match read {
        Err(stop) => stopped(alloc, &stop),
        Ok(flag) => String::from_str(alloc, if flag { "true" } else { "false" }),
    }
}

/// The number of a token, or why it is refused.
fn number_said(alloc: Global, read: Result<u64, Stop>) -> Result<String, AllocError> {
    match read {
        Err(stop) => stopped(alloc, &stop),
        Ok(n) => format!(in alloc; "{n}"),
    }
}

/// The first twelve numbers of a text, with 0 for those that it hasn't.
fn twelve(text: &str) -> [u64; 12] {
    let mut numbers = [0u64; 12];
    let mut at = 0usize;
    for word in text.split_whitespace() {
        if let Some(slot) = numbers.get_mut(at) {
            *slot = word.parse::<u64>().unwrap_or(0);
        }
        at = at.saturating_add(1);
    }
    numbers
}

/// So many numbers of twelve, spelled.
fn header_said(alloc: Global, len: u64, text: &str) -> Result<String, AllocError> {
    let mut said = String::new(alloc);
    for text in HeaderSpell::new(twelve(text), len.min(12) as usize) {
        add_token(&mut said, &text)?;
    }
    Ok(said)
}
