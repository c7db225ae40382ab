//! Answers rows of tokens, of fields, of the entries of tables and of heads of records.
#![tactic(auto)]

mod curves;
mod fields;
mod head_words;
mod heads;
mod locations;
mod meshes;
mod reading;
mod saying;
mod surfaces;
mod tokens;

use row_parts::{Row, row_of, text_of};
use std::alloc::{AllocError, Global};
use std::io;

/// The answer to a row of a table's entries or of heads.
fn answer_of_entries(
    alloc: Global,
    row: &Row<'_>,
    text: &str,
) -> Result<Option<String>, AllocError> {
    if let Some(said) = curves::answer(alloc, row, text)? {
        return Ok(Some(said));
    }
    if let Some(said) = surfaces::answer(alloc, row, text)? {
        return Ok(Some(said));
    }
    if let Some(said) = locations::answer(alloc, row, text)? {
        return Ok(Some(said));
    }
    if let Some(said) = meshes::answer(alloc, row, text)? {
        return Ok(Some(said));
    }
    heads::answer(alloc, row, text)
}

/// The answer to a row.
fn answer(alloc: Global, line: &str) -> Result<Option<String>, AllocError> {
    match row_of(line) {
        None => Ok(None),
        Some(row) => {
            let text = text_of(alloc, &row)?;
            if let Some(said) = tokens::answer(alloc, &row, text.as_str())? {
                return Ok(Some(said));
            }
            if let Some(said) = fields::answer(alloc, &row, text.as_str())? {
                return Ok(Some(said));
            }
            answer_of_entries(alloc, &row, text.as_str())
        }
    }
}

/// Prints a note as it is, and a row with its answer.
fn print_line(rt: &(impl Print + AllocGlobal), line: &str) -> io::Result<()> {
    if line.is_empty() || line.starts_with('#') {
        return println!(rt; "{line}");
    }
    match answer(rt.alloc(), line) {
        Ok(Some(said)) => {
            let said = said.as_str().trim_start();
            println!(rt; "{line} -> {said}")
        }
        Ok(None) => println!(rt; "{line} -> ?"),
        Err(_) => println!(rt; "{line} -> no memory"),
    }
}

fn main(rt: HostRuntime) -> io::Result<()> {
    for line in rt.lines(rt.alloc()) {
        print_line(&rt, line?.as_str())?;
    }
    Ok(())
}
