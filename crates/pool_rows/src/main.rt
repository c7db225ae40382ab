//! Answers rows that make pools of shapes, ask steps of them and look into them.
//!
//! A line that begins with `#` and an empty line are printed as they are. Each other line is a row, and is printed with
//! its answer. A row `pool ..` makes the pool that the rows after it are about.
#![tactic(auto)]

mod asking;
mod checks;
mod histories;
mod making;
mod maps;
mod numbers;
mod parse;
mod plans;
mod pools;
mod scene;
mod sews;
mod texts;
mod walks;

use checks::requests_row;
use histories::{chain_row, start_row, step_row, steps_row};
use maps::{above_count_row, above_row, count_row, map_row};
use numbers::{ids_row, pairs_row};
use parse::Stop;
use pools::pool_row;
use sews::{merge_row, sew_row};
use std::alloc::Global;
use std::io;
use std::io::{BufReader, BufWriter, Write};
use walks::walk_row;

/// The answer to a row, by its first word, over the pool of these statements.
fn answer(alloc: Global, held: &str, word: &str, rest: &str) -> Result<String, Stop> {
    match word.as_bytes() {
        b"pool" => pool_row(alloc, rest),
        b"requests" => requests_row(alloc, held, rest),
        b"step" => step_row(alloc, held, rest),
        b"steps" => steps_row(alloc, held, rest),
        b"start" => start_row(alloc, held, rest),
        b"chain" => chain_row(alloc, held, rest),
        b"map" => map_row(alloc, held, rest),
        b"count" => count_row(alloc, held, rest),
        b"above" => above_row(alloc, held, rest),
        b"above-count" => above_count_row(alloc, held, rest),
        b"walk" => walk_row(alloc, held, rest),
        b"merge" => merge_row(alloc, held, rest),
        b"sew" => sew_row(alloc, held, rest),
        b"ids" => ids_row(alloc, rest),
        b"pairs" => pairs_row(alloc, rest),
        _ => Err(Stop::Unreadable),
    }
}

/// Prints a row and its answer.
fn print_row<W: Write>(out: &mut W, row: &str, got: &Result<String, Stop>) -> io::Result<()> {
    let text = match got {
        Ok(text) => text.as_str(),
        Err(Stop::Unreadable) => "?",
        Err(Stop::NoMemory) => "no memory",
    };
    out.write_all(row.as_bytes())?;
    out.write_all(b" -> ")?;
    out.write_all(text.as_bytes())?;
    out.write_all(b"\n")
}

/// Prints a line, with its answer where it is a row, and gives the statements of the pool for the next one.
fn print_line<'a, W: Write>(
    alloc: Global,
    out: &mut W,
    held: &'a str,
    line: &'a str,
) -> io::Result<&'a str> {
    if line.is_empty() || line.starts_with('#') {
        out.write_all(line.as_bytes())?;
        out.write_all(b"\n")?;
        return Ok(held);
    }
    let (word, rest) = match line.split_once(' ') {
        Some((word, rest)) => (word, rest),
        None => (line, ""),
    };
    print_row(out, line, &answer(alloc, held, word, rest))?;
    if word == "pool" {
        return Ok(rest);
    }
    Ok(held)
}

fn main(rt: HostRuntime) -> io::Result<()> {
    let alloc = rt.alloc();
    let text = io::read_to_string(alloc, BufReader::new(alloc, rt.reader())?)?;
    let mut out = BufWriter::new(alloc, io::writer(&rt))?;
    let mut held = "";
    for line in text.as_str().lines() {
        held = print_line(alloc, &mut out, held, line)?;
    }
    out.flush()
}
