//! Many runs and readings, of which those in a row with one answer are told on one line.
use crate::answers::{Known, Layout, run_text};
use crate::reads::pieces_text;
use brep_desk::{CommandWords, Desk};
use brep_run::Outcome;
use row_runs::{desk_of, ran, words_of};
use row_texts::Texts;
use std::alloc::{AllocError, Global};

/// How many calls are tried at most.
const MOST_CALLS: u64 = 1_000_000;

/// Lines of answers by number.
#[derive(Drop)]
struct Ranges {
    alloc: Global,
    lines: String,
    /// The first and the last number of the answer that isn't told yet.
    first: u64,
    last: u64,
    answer: String,
}

impl Ranges {
    fn new(alloc: Global) -> Ranges {
        Ranges {
            alloc,
            lines: String::new(alloc),
            first: 0,
            last: 0,
            answer: String::new(alloc),
        }
    }

    /// Tells the answer that isn't told yet, if there is one.
    fn finish(&mut self) -> Result<(), AllocError> {
        if self.answer.is_empty() {
            return Ok(());
        }
        let first = self.first;
        let last = self.last;
        let numbers = if first == last {
            format!(in self.alloc; "{first}: ")?
        } else {
            format!(in self.alloc; "{first} to {last}: ")?
        };
        self.lines.push_str(numbers.as_str())?;
        self.lines.push_str(self.answer.as_str())?;
        self.lines.push_str("\n")
    }

    /// The answer of the next number.
    fn take(&mut self, number: u64, answer: String) -> Result<(), AllocError> {
        if self.answer.as_str() != answer.as_str() {
            self.finish()?;
            self.first = number;
            self.answer = answer;
        }
        self.last = number;
        Ok(())
    }
}

/// What is told of one run over a new desk, and whether no call failed.
fn one_run(
    alloc: Global,
    known: Known<'_>,
    failing: &[u64],
    piece: usize,
    words: &CommandWords,
) -> Result<(String, bool), AllocError> {
    let mut desk = desk_of(alloc, known.given, failing, piece)?;
    let outcome = ran(alloc, words, &mut desk);
    let text = run_text(alloc, known, Layout::OneLine, &outcome, &desk, words)?;
    Ok((text, desk.faults() == 0))
}

/// What is told of the runs in which the first call fails, the second, and so on, and of the run after them, in which
/// none fails.
pub(crate) fn fail_each_text(
    alloc: Global,
    known: Known<'_>,
    piece: usize,
    line: &str,
) -> Result<String, AllocError> {
    let words = words_of(alloc, line)?;
    let mut ranges = Ranges::new(alloc);
    for call in 1..=MOST_CALLS {
        let (text, whole) = one_run(alloc, known, &[call], piece, &words)?;
        ranges.take(call, text)?;
        if whole {
            break;
        }
    }
    ranges.finish()?;
    Ok(ranges.lines)
}

/// What is told of a copy of these bytes.
fn prefix_text(
    alloc: Global,
    known: Known<'_>,
    piece: usize,
    bytes: &[u8],
) -> Result<String, AllocError> {
    let mut texts = Texts::new(alloc);
    texts.begin("in")?;
    texts.add(bytes)?;
    let words = words_of(alloc, "copy in out")?;
    let mut desk = desk_of(alloc, &texts, &[], piece)?;
    let outcome = ran(alloc, &words, &mut desk);
    run_text(alloc, known, Layout::OneLine, &outcome, &desk, &words)
}

/// What is told of the copies of the first 0, 1, 2 and so on bytes, up to all.
pub(crate) fn prefixes_text(
    alloc: Global,
    known: Known<'_>,
    piece: usize,
    bytes: &[u8],
) -> Result<String, AllocError> {
    let mut ranges = Ranges::new(alloc);
    for size in 0..=bytes.len() {
        let front = bytes.get(..size).unwrap_or(&[]);
        let text = prefix_text(alloc, known, piece, front)?;
        ranges.take(size as u64, text)?;
    }
    ranges.finish()?;
    Ok(ranges.lines)
}

/// What is read where the bytes come in two pieces, of which the first has 0, 1, 2 and so on bytes, up to all.
pub(crate) fn cuts_text(alloc: Global, bytes: &[u8]) -> Result<String, AllocError> {
    let mut ranges = Ranges::new(alloc);
    for size in 0..=bytes.len() {
        let front = bytes.get(..size).unwrap_or(&[]);
        let back = bytes.get(size..).unwrap_or(&[]);
        let text = pieces_text(alloc, front, back)?;
        ranges.take(size as u64, text)?;
    }
    ranges.finish()?;
    Ok(ranges.lines)
}
