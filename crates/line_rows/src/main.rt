//! Answers rows of script lines and of the text of histories.
#![tactic(auto)]

mod commands;
mod emitting;
mod histories;
mod saying;
mod script_lines;

use row_parts::{row_of, shown, text_of};
use std::alloc::{AllocError, Global};
use std::io;

/// The answer to a row, with `\n` and `\r` for ends of lines.
fn answer(alloc: Global, line: &str) -> Result<Option<String>, AllocError> {
    match row_of(line) {
        None => Ok(None),
        Some(row) => {
            let text = text_of(alloc, &row)?;
            if let Some(said) = script_lines::answer(alloc, &row, text.as_str())? {
                return Ok(Some(shown(alloc, said.as_str())?));
            }
            if let Some(said) = histories::answer(alloc, &row, text.as_str())? {
                return Ok(Some(shown(alloc, said.as_str())?));
            }
            Ok(None)
        }
    }
}

/// Prints a note as it is, and a row with its answer.
fn print_line(rt: &(impl Print + AllocGlobal), line: &str) -> io::Result<()> {
    if line.is_empty() || line.starts_with('#') {
        return println!(rt; "{line}");
    }
    match answer(rt.alloc(), line) {
        Ok(Some(said)) => {
            let said = said.as_str().trim_start();
            println!(rt; "{line} -> {said}")
        }
        Ok(None) => println!(rt; "{line} -> ?"),
        Err(_) => println!(rt; "{line} -> no memory"),
    }
}

fn main(rt: HostRuntime) -> io::Result<()> {
    for line in rt.lines(rt.alloc()) {
        print_line(&rt, line?.as_str())?;
    }
    Ok(())
}
