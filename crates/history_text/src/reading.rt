//! A history, read from its text.
ghost use Rattle.history_text.specs.LineForms.{origin_due, pair_due, removed_due};
ghost use Rattle.history_text.specs.Reading.{history_at, history_of, line_at, origins_at, pairs_at, removed_at};
ghost use Rattle.history_text.specs.Spelled.{Answers, Gives, Takes};
ghost use Rattle.std.specs.Prelude.{◌≡◌};

use crate::fault::HistoryFault;
use crate::file::HistoryFile;
use crate::laws::texts_spell_one_history;
use crate::line_forms::{origin_due, pair_due, removed_due};
use crate::lines_left::LinesLeft;
use crate::pairs::NumberPairs;
use brep_tokens::Numbers;
use std::alloc::Global;

/// The origin of the next written number.
fn origin(lines: &mut LinesLeft<'_>, said: &Numbers) -> Result<u64, HistoryFault>
    ensures { Takes (line_at (origin_due said.now) lines.old) lines.new result }
{
    let line = lines.next()?;
    origin_due(said, line.text).ok_or(HistoryFault::NotHistory { line: line.number })
}

/// The next pair of a section.
fn pair(
    lines: &mut LinesLeft<'_>,
    written: u64,
    said: &NumberPairs,
) -> Result<(u64, u64), HistoryFault>
    ensures { Takes (line_at (pair_due written said.now) lines.old) lines.new result }
{
    let line = lines.next()?;
    pair_due(written, said, line.text).ok_or(HistoryFault::NotHistory { line: line.number })
}

/// The next removed number.
fn removed_number(lines: &mut LinesLeft<'_>, said: &Numbers) -> Result<u64, HistoryFault>
    ensures { Takes (line_at (removed_due said.now) lines.old) lines.new result }
{
    let line = lines.next()?;
    removed_due(said, line.text).ok_or(HistoryFault::NotHistory { line: line.number })
}

/// The written numbers from 1 on, each with its origin, under their count.
fn origins(alloc: Global, lines: &mut LinesLeft<'_>) -> Result<Numbers, HistoryFault>
    ensures { Takes (origins_at lines.old) lines.new result }
{
    let mut due = lines.count(b"records")?;
    let mut said = Numbers::new(alloc);
    'lines: while due > 0 {
        let next = origin(lines, &said)?;
        said.push(next).map_err(|_| HistoryFault::NoMemory)?;
        due -= 1;
    }
    Ok(said)
}

/// Pairs, under a word and their count, of so many written records.
fn pairs(
    alloc: Global,
    lines: &mut LinesLeft<'_>,
    word: &[u8],
    written: u64,
) -> Result<NumberPairs, HistoryFault>
    ensures { Takes (pairs_at word.now written lines.old) lines.new result }
{
    let mut due = lines.count(word)?;
    let mut said = NumberPairs::new(alloc);
    'lines: while due > 0 {
        let next = pair(lines, written, &said)?;
        said.push(next).map_err(|_| HistoryFault::NoMemory)?;
        due -= 1;
    }
    Ok(said)
}

/// Removed numbers, under their count.
fn removed(alloc: Global, lines: &mut LinesLeft<'_>) -> Result<Numbers, HistoryFault>
    ensures { Takes (removed_at lines.old) lines.new result }
{
    let mut due = lines.count(b"removed")?;
    let mut said = Numbers::new(alloc);
    'lines: while due > 0 {
        let next = removed_number(lines, &said)?;
        said.push(next).map_err(|_| HistoryFault::NoMemory)?;
        due -= 1;
    }
    Ok(said)
}

/// All lines of a history.
fn history(alloc: Global, lines: &mut LinesLeft<'_>) -> Result<HistoryFile, HistoryFault>
    ensures { Takes (history_at lines.old) lines.new result }
{
    lines.text(b"BREP-HISTORY 1")?;
    let origins = origins(alloc, lines)?;
    let written = origins.len() as u64;
    let modified = pairs(alloc, lines, b"modified", written)?;
    let generated = pairs(alloc, lines, b"generated", written)?;
    let removed = removed(alloc, lines)?;
    lines.text(b"end")?;
    Ok(HistoryFile {
        origins,
        modified,
        generated,
        removed,
    })
}

/// The history, and nothing after it.
fn alone(alloc: Global, bytes: &[u8]) -> Result<HistoryFile, HistoryFault>
    ensures { Gives (history_of bytes.now) result }
{
    let mut lines = LinesLeft::of(bytes);
    let history = history(alloc, &mut lines)?;
    lines.end()?;
    Ok(history)
}

/// The history that the bytes spell, in the layout that `emit` writes.
pub fn read(alloc: Global, bytes: &[u8]) -> Result<HistoryFile, HistoryFault>
    ensures { Answers bytes.now result }
{
    texts_spell_one_history();
    alone(alloc, bytes)
}
