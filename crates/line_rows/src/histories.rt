//! Rows of histories: values `ORIGINS | MODIFIED | GENERATED | REMOVED`, and texts.

use crate::emitting::{desk_of, is_written_as, once, twice};
use crate::saying::{add, add_number};
use brep_tokens::Numbers;
use history_text::{HistoryFault, HistoryFile, NumberPairs, read};
use row_parts::Row;
use std::alloc::{AllocError, Global};

/// The answer to a row of this module.
pub fn answer(alloc: Global, row: &Row<'_>, text: &str) -> Result<Option<String>, AllocError> {
    let piece = row.first.unwrap_or(1_000);
    let said = match row.word {
        "emit" => once(
            alloc,
            &value_of(alloc, text)?,
            &mut desk_of(alloc, piece, row.second)?,
        )?,
        "emit-twice" => twice(
            alloc,
            &value_of(alloc, text)?,
            &mut desk_of(alloc, piece, row.second)?,
        )?,
        "read" => read_said(alloc, text)?,
        "pairs" => pairs_said(alloc, &pairs_of(alloc, text)?)?,
        "message" => message(alloc, text)?,
        _ => return Ok(None),
    };
    Ok(Some(said))
}

/// The number that a word spells, and 0 where it spells none.
fn worth(word: &str) -> u64 {
    word.parse::<u64>().unwrap_or(0)
}

/// The numbers of a text.
fn numbers_of(alloc: Global, text: &str) -> Result<Numbers, AllocError> {
    let mut numbers = Numbers::new(alloc);
    for word in text.split_whitespace() {
        numbers.push(worth(word))?;
    }
    Ok(numbers)
}

/// The pairs of a text, each with a comma between its numbers.
fn pairs_of(alloc: Global, text: &str) -> Result<NumberPairs, AllocError> {
    let mut pairs = NumberPairs::new(alloc);
    for word in text.split_whitespace() {
        if let Some((first, second)) = word.split_once(',') {
            pairs.push((worth(first), worth(second)))?;
        }
    }
    Ok(pairs)
}

/// The value that a row spells.
fn value_of(alloc: Global, text: &str) -> Result<HistoryFile, AllocError> {
    let mut parts = text.split('|');
    Ok(HistoryFile {
        origins: numbers_of(alloc, parts.next().unwrap_or(""))?,
        modified: pairs_of(alloc, parts.next().unwrap_or(""))?,
        generated: pairs_of(alloc, parts.next().unwrap_or(""))?,
        removed: numbers_of(alloc, parts.next().unwrap_or(""))?,
    })
}

/// Appends numbers.
fn add_numbers(said: &mut String, alloc: Global, numbers: &Numbers) -> Result<(), AllocError> {
    for at in 0..numbers.len() {
        if let Some(n) = numbers.get(at) {
            add_number(said, alloc, *n)?;
        }
    }
    Ok(())
}

/// Appends a pair.
fn add_pair(said: &mut String, alloc: Global, pair: &(u64, u64)) -> Result<(), AllocError> {
    let (first, second) = *pair;
    add(said, format!(in alloc; "{first},{second}")?.as_str())
}

/// Appends pairs.
fn add_pairs(said: &mut String, alloc: Global, pairs: &NumberPairs) -> Result<(), AllocError> {
    for pair in pairs.as_slice() {
        add_pair(said, alloc, pair)?;
    }
    Ok(())
}

/// Appends the value of a history.
fn add_value(said: &mut String, alloc: Global, history: &HistoryFile) -> Result<(), AllocError> {
    add_numbers(said, alloc, &history.origins)?;
    said.push_str(" |")?;
    add_pairs(said, alloc, &history.modified)?;
    said.push_str(" |")?;
    add_pairs(said, alloc, &history.generated)?;
    said.push_str(" |")?;
    add_numbers(said, alloc, &history.removed)
}

/// Why a text is no history.
fn fault_said(alloc: Global, fault: HistoryFault) -> Result<String, AllocError> {
    match fault {
        HistoryFault::NotHistory { line } => format!(in alloc; "not a history at line {line}"),
        HistoryFault::NoMemory => String::from_str(alloc, "no memory"),
    }
}

/// The history that a text spells, and whether it is written as this text again.
fn read_said(alloc: Global, text: &str) -> Result<String, AllocError> {
    match read(alloc, text.as_bytes()) {
        Err(fault) => fault_said(alloc, fault),
        Ok(history) => {
            let mut said = String::new(alloc);
            add_value(&mut said, alloc, &history)?;
            add(
                &mut said,
                if is_written_as(alloc, &history, text)? {
                    "written alike"
                } else {
                    "written otherwise"
                },
            )?;
            Ok(said)
        }
    }
}

/// How many pairs a list has, and each at its place, up to the first place that has none.
fn pairs_said(alloc: Global, pairs: &NumberPairs) -> Result<String, AllocError> {
    if pairs.is_empty() {
        return String::from_str(alloc, "empty");
    }
    let mut said = String::new(alloc);
    add_number(&mut said, alloc, pairs.len() as u64)?;
    said.push_str(":")?;
    for at in 0..=pairs.len() {
        match pairs.get(at) {
            Some(pair) => add_pair(&mut said, alloc, pair)?,
            None => add(&mut said, "none")?,
        }
    }
    Ok(said)
}

/// The message of a fault at a line, or of want of memory.
fn message(alloc: Global, text: &str) -> Result<String, AllocError> {
    let fault = match text.parse::<u64>() {
        Ok(line) => HistoryFault::NotHistory { line },
        Err(_) => HistoryFault::NoMemory,
    };
    format!(in alloc; "{fault}")
}
