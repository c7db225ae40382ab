//! Rows of desks in memory, and of the words of a command.
ghost use Rattle.std.specs.Prelude.{◌<◌};

use crate::desk_answers::changed;
use brep_desk::{Bytes, CommandWords, MemoryDesk, NameText};
use std::alloc::Global;
use tree_texts::{Missed, counted, cut, cut_if, join, number, said, small, yes};

/// A name of a text.
fn name(alloc: Global, text: &str) -> Result<NameText, Missed> {
    Ok(NameText::of(String::from_str(alloc, text)?))
}

/// The numbers of a list such as `1,3`.
fn numbers(alloc: Global, text: &str) -> Result<Vec<u64>, Missed> {
    let mut numbers = Vec::new(alloc);
    if text == "none" {
        return Ok(numbers);
    }
    for part in text.split(",") {
        numbers.push(number(part)?)?;
    }
    Ok(numbers)
}

/// A desk that holds one file.
fn desk(alloc: Global, file: &str, failing: Vec<u64>, piece: usize) -> Result<MemoryDesk, Missed>
    requires { 0 < piece }
{
    let (title, text) = cut(file, "=")?;
    let bytes = Bytes::of(Vec::from_slice(alloc, text.as_bytes())?);
    let mut files = Vec::new(alloc);
    files.push((name(alloc, title)?, bytes))?;
    Ok(MemoryDesk::new(alloc, files, failing, piece))
}

/// The answers of a desk, one after another. What is read goes into a buffer of eight bytes.
fn answers(alloc: Global, desk: MemoryDesk, calls: &str) -> Result<String, Missed> {
    let mut desk = desk;
    let mut buffer = [0u8; 8];
    let mut answers = String::new(alloc);
    for call in calls.split(" ; ") {
        let (what, text) = cut_if(call, " ");
        let answer = changed(alloc, &mut desk, &mut buffer, what, text.unwrap_or(""))?;
        join(&mut answers, " ; ", answer.as_str())?;
    }
    Ok(answers)
}

/// `NAME=TEXT piece N fail N,.. ; CALL ; ..`.
pub(crate) fn of_desk(alloc: Global, row: &str) -> Result<String, Missed> {
    let (settings, calls) = cut(row, " ; ")?;
    let (file, rest) = cut(settings, " piece ")?;
    let (piece, failing) = cut(rest, " fail ")?;
    let piece = small(piece)? as usize;
    if piece == 0 {
        return Err(Missed::Unclear);
    }
    let failing = numbers(alloc, failing)?;
    let desk = desk(alloc, file, failing, piece)?;
    answers(alloc, desk, calls)
}

/// The words of a command.
fn command(alloc: Global, text: &str) -> Result<CommandWords, Missed> {
    let mut words = CommandWords::new(alloc);
    if text == "none" {
        return Ok(words);
    }
    for word in text.split(" ") {
        words.push(name(alloc, word)?)?;
    }
    Ok(words)
}

/// The word at a place, counted from 0.
fn word_at(alloc: Global, words: &CommandWords, place: usize) -> Result<String, Missed> {
    match words.get(place) {
        Some(word) => said(alloc, word.text()),
        None => said(alloc, "none"),
    }
}

/// `WORD WORD .. ; count`, `; all`, `; empty` or `; get PLACE`.
pub(crate) fn of_names(alloc: Global, row: &str) -> Result<String, Missed> {
    let (text, what) = cut(row, " ; ")?;
    let words = command(alloc, text)?;
    match what {
        "count" => counted(alloc, words.len() as u64),
        "all" => counted(alloc, words.as_slice().len() as u64),
        "empty" => yes(alloc, words.is_empty()),
        _ => {
            let (_, place) = cut(what, "get ")?;
            word_at(alloc, &words, small(place)? as usize)
        }
    }
}
