//! Answers rows about turns, kinds, words, graphs, trees, rewriting and desks, a line each.
#![tactic(auto)]

mod desk_answers;
mod desk_rows;
mod expansions;
mod graphs;
mod rewriting;
mod turns;
mod words;

use std::alloc::{AllocError, Global};
use std::io::{self, BufRead, BufReader};
use tree_texts::{Missed, cut};

/// What comes of a row by its first word.
fn answer(alloc: Global, row: &str) -> Result<String, Missed> {
    let (word, rest) = cut(row, " ")?;
    match word {
        "turn" => turns::of_turns(alloc, rest),
        "kind" => turns::of_kinds(alloc, rest),
        "rule" => turns::of_rules(alloc, rest),
        "is" | "inverse" => words::of_one(alloc, word, rest),
        "power" => words::of_power(alloc, rest),
        "mul" | "product" | "around" => words::of_two(alloc, word, rest),
        "numbers" => words::of_numbers(alloc, rest),
        "graph" => graphs::of_graph(alloc, rest),
        "expand" => expansions::of_expand(alloc, rest),
        "same" => rewriting::of_same(alloc, rest),
        "rewrite" => rewriting::of_rewrite(alloc, rest),
        "desk" => desk_rows::of_desk(alloc, rest),
        "names" => desk_rows::of_names(alloc, rest),
        _ => Err(Missed::Unclear),
    }
}

/// A row with its answer.
fn answered(alloc: Global, row: &str) -> Result<String, AllocError> {
    let mut line = String::from_str(alloc, row)?;
    line.push_str(" -> ")?;
    match answer(alloc, row) {
        Ok(text) => line.push_str(text.as_str())?,
        Err(Missed::Unclear) => line.push_str("?")?,
        Err(Missed::NoMemory) => line.push_str("no memory")?,
    }
    Ok(line)
}

/// A line as it is printed: notes and empty lines stay.
fn printed(alloc: Global, line: &str) -> Result<String, AllocError> {
    if line.is_empty() || line.starts_with("#") {
        return String::from_str(alloc, line);
    }
    answered(alloc, line)
}

fn main(rt: HostRuntime) -> io::Result<()> {
    let alloc = rt.alloc();
    for line in BufReader::new(alloc, rt.reader())?.lines(alloc) {
        let line = line?;
        let text = printed(alloc, line.as_str())?;
        println!(rt; "{text}")?;
    }
    Ok(())
}
