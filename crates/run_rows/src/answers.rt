//! What is told of a run: its status and message, the calls that failed, and what was written.
use brep_desk::{CommandWords, Desk, MemoryDesk, NameText};
use brep_run::Outcome;
use row_texts::Texts;
use std::alloc::{AllocError, Global};

/// The texts that an output is compared with: the files of the row, and the kept ones.
#[derive(Clone, Copy)]
pub(crate) struct Known<'a> {
    pub(crate) given: &'a Texts,
    pub(crate) kept: &'a Texts,
}

/// Is each output told on lines of its own, its bytes too where they stand under no name, or all on one line?
#[derive(Clone, Copy, PartialEq, Eq)]
pub(crate) enum Layout {
    Lines,
    OneLine,
}

/// The name of a text that is this one.
fn alike<'a>(known: Known<'a>, bytes: &[u8]) -> Option<&'a str> {
    match known.given.alike(bytes) {
        Some(name) => Some(name),
        None => known.kept.alike(bytes),
    }
}

/// The name of a text that begins with these bytes.
fn begun_by<'a>(known: Known<'a>, bytes: &[u8]) -> Option<&'a str> {
    match known.given.begun_by(bytes) {
        Some(name) => Some(name),
        None => known.kept.begun_by(bytes),
    }
}

fn push_count(text: &mut String, alloc: Global, count: usize) -> Result<(), AllocError> {
    let digits = format!(in alloc; "{count}")?;
    text.push_str(digits.as_str())
}

/// The bytes as lines, and a line `.`, which says so where no byte 10 ends the last of them.
fn push_lines(text: &mut String, bytes: &[u8]) -> Result<(), AllocError> {
    text.push_str(":\n")?;
    let Ok(lines) = str::from_utf8(bytes) else {
        return text.push_str(". (bytes that are no text)");
    };
    text.push_str(lines)?;
    if lines.ends_with('\n') {
        return text.push_str(".");
    }
    text.push_str("\n. (the last line isn't ended)")
}

/// The bytes of an output that is no text under a name: its lines, or on one line how many bytes it has.
fn push_bytes(
    text: &mut String,
    alloc: Global,
    layout: Layout,
    bytes: &[u8],
) -> Result<(), AllocError> {
    if layout == Layout::Lines {
        return push_lines(text, bytes);
    }
    text.push_str(", ")?;
    push_count(text, alloc, bytes.len())?;
    text.push_str(" bytes")
}

/// An output that isn't ended and is no whole text under a name.
fn push_part(
    text: &mut String,
    alloc: Global,
    known: Known<'_>,
    layout: Layout,
    bytes: &[u8],
) -> Result<(), AllocError> {
    let Some(name) = begun_by(known, bytes) else {
        return push_bytes(text, alloc, layout, bytes);
    };
    text.push_str(", the first ")?;
    push_count(text, alloc, bytes.len())?;
    text.push_str(" bytes of ")?;
    text.push_str(name)
}

/// An output: whether it is ended, and what it has.
fn push_output(
    text: &mut String,
    alloc: Global,
    known: Known<'_>,
    layout: Layout,
    ended: bool,
    bytes: &[u8],
) -> Result<(), AllocError> {
    text.push_str(if ended { ", ended" } else { ", not ended" })?;
    if bytes.is_empty() {
        return text.push_str(", empty");
    }
    if let Some(name) = alike(known, bytes) {
        text.push_str(", as ")?;
        return text.push_str(name);
    }
    if ended {
        return push_bytes(text, alloc, layout, bytes);
    }
    push_part(text, alloc, known, layout, bytes)
}

/// What stands under a name, if its writing began.
fn push_name(
    text: &mut String,
    alloc: Global,
    known: Known<'_>,
    layout: Layout,
    desk: &MemoryDesk,
    name: &str,
) -> Result<(), AllocError> {
    let Some(bytes) = desk.written(name) else {
        return Ok(());
    };
    text.push_str(if layout == Layout::Lines { "\n" } else { "; " })?;
    text.push_str(name)?;
    push_output(text, alloc, known, layout, desk.ended(name), bytes)
}

fn is_among(words: &[NameText], name: &str) -> bool {
    for word in words {
        if word.text() == name {
            return true;
        }
    }
    false
}

/// What stands under the words, each told once, and under `-`.
fn outputs_text(
    alloc: Global,
    known: Known<'_>,
    layout: Layout,
    desk: &MemoryDesk,
    words: &CommandWords,
) -> Result<String, AllocError> {
    let mut text = String::new(alloc);
    let mut told = CommandWords::new(alloc);
    for word in words.as_slice() {
        if !is_among(told.as_slice(), word.text()) {
            push_name(&mut text, alloc, known, layout, desk, word.text())?;
            told.push(NameText::of(String::from_str(alloc, word.text())?))?;
        }
    }
    if !is_among(words.as_slice(), "-") {
        push_name(&mut text, alloc, known, layout, desk, "-")?;
    }
    Ok(text)
}

/// The status, and the message where there is one.
pub(crate) fn status_text(alloc: Global, outcome: &Outcome) -> Result<String, AllocError> {
    let status = outcome.status();
    let mut text = format!(in alloc; "status {status}")?;
    let message = outcome.message(alloc)?;
    if !message.text().is_empty() {
        text.push_str(": ")?;
        text.push_str(message.text())?;
    }
    Ok(text)
}

fn push_faults(text: &mut String, alloc: Global, faults: u64) -> Result<(), AllocError> {
    if faults == 0 {
        return Ok(());
    }
    let told = format!(in alloc; "; faults {faults}")?;
    text.push_str(told.as_str())
}

/// All that is told of a run, without the end of its last line.
pub(crate) fn run_text(
    alloc: Global,
    known: Known<'_>,
    layout: Layout,
    outcome: &Outcome,
    desk: &MemoryDesk,
    words: &CommandWords,
) -> Result<String, AllocError> {
    let mut text = status_text(alloc, outcome)?;
    push_faults(&mut text, alloc, desk.faults())?;
    let outputs = outputs_text(alloc, known, layout, desk, words)?;
    if outputs.is_empty() {
        text.push_str("; nothing written")?;
    }
    text.push_str(outputs.as_str())?;
    Ok(text)
}
