//! Runs of the program over a desk in memory.
ghost use Rattle.std.specs.Prelude.{◌≡◌, ◌<◌};

use brep_desk::{Bytes, CommandWords, MemoryDesk, NameText, Steps};
use brep_run::{Outcome, run};
use row_texts::{Named, Texts};
use std::alloc::{AllocError, Global};
use std::marker::Brand;
use std::sync::ledger::{Blank, Ledger};

fn file_of(alloc: Global, text: &Named) -> Result<(NameText, Bytes), AllocError> {
    let name = String::from_str(alloc, text.name())?;
    let bytes = text.bytes().to_vec(alloc)?;
    Ok((NameText::of(name), Bytes::of(bytes)))
}

/// A desk that holds the texts, whose calls of these numbers fail, and which moves at most so many bytes a call, or one.
pub fn desk_of(
    alloc: Global,
    texts: &Texts,
    failing: &[u64],
    piece: usize,
) -> Result<MemoryDesk, AllocError> {
    let mut files = Vec::new(alloc);
    for text in texts.items() {
        files.push(file_of(alloc, text)?)?;
    }
    let failing = failing.to_vec(alloc)?;
    Ok(MemoryDesk::new(alloc, files, failing, piece.max(1)))
}

fn word_of(alloc: Global, word: &str) -> Result<NameText, AllocError> {
    let word = if word == "\"\"" { "" } else { word };
    Ok(NameText::of(String::from_str(alloc, word)?))
}

/// The words of a line, between which spaces stand; `""` is the empty word.
pub fn words_of(alloc: Global, line: &str) -> Result<CommandWords, AllocError> {
    let mut words = CommandWords::new(alloc);
    for word in line.split(' ') {
        if !word.is_empty() {
            words.push(word_of(alloc, word)?)?;
        }
    }
    Ok(words)
}

fn run_counted<L: Ledger>(
    alloc: Global,
    words: &CommandWords,
    desk: &mut MemoryDesk,
    blank: Blank,
) -> Outcome
    requires name { blank.name ≡ L.name }
    requires parts { blank.parts ≡ L.parts }
    requires some { 0 < blank.parts }
{
    let mut steps = Steps::<L>::open(blank);
    run(alloc, words, desk, &mut steps)
}

/// Runs the command of the words over the desk.
pub fn ran(alloc: Global, words: &CommandWords, desk: &mut MemoryDesk) -> Outcome {
    run_counted::<Brand>(alloc, words, desk, Blank::new(1))
}
