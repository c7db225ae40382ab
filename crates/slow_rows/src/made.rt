//! What the whole program makes of a file and a script.
use crate::origins::{by_origins, keep_kinds};
use crate::shapes::Shapes;
use brep_desk::MemoryDesk;
use brep_run::Outcome;
use expansion_laws::TreeUse;
use history_text::{HistoryFault, HistoryFile, read};
use orientation::Kind;
use row_runs::{desk_of, ran, words_of};
use row_texts::Texts;
use std::alloc::{AllocError, Global};
use tree_texts::Missed;

/// The root that is written, by the origins of its records; the message of a step that leads round in a circle; or
/// that of another refusal.
#[derive(Drop)]
pub(crate) enum Made {
    Root(TreeUse),
    Circle(String),
    Refused(String),
}

/// A desk that holds the file and the script.
fn desk_with(alloc: Global, file: &str, script: &str) -> Result<MemoryDesk, AllocError> {
    let mut texts = Texts::new(alloc);
    texts.begin("in")?;
    texts.add(file.as_bytes())?;
    texts.begin("script")?;
    texts.add(script.as_bytes())?;
    desk_of(alloc, &texts, &[], 4096)
}

/// What stands whole under a name.
fn written<'a>(desk: &'a MemoryDesk, name: &str) -> Result<&'a [u8], Missed> {
    match desk.written(name) {
        Some(bytes) => if desk.ended(name) {
            Ok(bytes)
        } else {
            Err(Missed::Unclear)
        },
        None => Err(Missed::Unclear),
    }
}

/// The history of a text.
fn history_of(alloc: Global, bytes: &[u8]) -> Result<HistoryFile, Missed> {
    match read(alloc, bytes) {
        Ok(history) => Ok(history),
        Err(HistoryFault::NotHistory { .. }) => Err(Missed::Unclear),
        Err(HistoryFault::NoMemory) => Err(Missed::NoMemory),
    }
}

/// The root that is written, where each record has the kind of its origin.
fn root_of(alloc: Global, desk: &MemoryDesk, kinds: &[Kind]) -> Result<TreeUse, Missed> {
    let shapes = Shapes::of(alloc, written(desk, "out")?)?;
    let history = history_of(alloc, written(desk, "history")?)?;
    let origins = history.origins.as_slice();
    if !keep_kinds(kinds, origins, shapes.kinds()) {
        return Err(Missed::Unclear);
    }
    let root = shapes.root()?;
    by_origins(alloc, origins, &root)
}

/// The message of a refusal.
fn message_of(alloc: Global, outcome: &Outcome) -> Result<String, Missed> {
    let message = outcome.message(alloc)?;
    Ok(String::from_str(alloc, message.text())?)
}

/// What the program makes of a file, whose records have these kinds, and a script.
pub(crate) fn made_of(
    alloc: Global,
    file: &str,
    script: &str,
    kinds: &[Kind],
) -> Result<Made, Missed> {
    let mut desk = desk_with(alloc, file, script)?;
    let words = words_of(alloc, "rewrite in script out history")?;
    let outcome = ran(alloc, &words, &mut desk);
    match &outcome {
        Outcome::Done => Ok(Made::Root(root_of(alloc, &desk, kinds)?)),
        Outcome::Cycle(_) => Ok(Made::Circle(message_of(alloc, &outcome)?)),
        _ => Ok(Made::Refused(message_of(alloc, &outcome)?)),
    }
}
