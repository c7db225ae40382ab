//! The text of a history, written over a channel.
ghost use Rattle.brep_desk.specs.Causes.{Rose};
ghost use Rattle.brep_desk.specs.WritingCalls.{RoseWritingCalls};
ghost use Rattle.history_text.specs.HistoryText.{origins_text, pairs_text, removed_text, text_of};
ghost use Rattle.history_text.specs.Sending.{AppendedPart, AppendedWhole, KeepsStraysIfOpen, Sends, counted};
ghost use Rattle.std.specs.Prelude.{◌≡◌, ◌≤◌, length, IfErr, IfOk, OnErr, OnOk};

use crate::file::HistoryFile;
use crate::lines::{count_line, number_line, pair_line};
use crate::pairs::NumberPairs;
use crate::pending::Pending;
use brep_desk::{Chan, Desk, WriteStop};
use brep_tokens::Numbers;

/// The written numbers from 1 on, each with its origin, under their count.
fn put_origins<D: Desk>(
    pending: &mut Pending,
    desk: &mut D,
    c: Chan,
    origins: &Numbers,
) -> Result<(), WriteStop>
    ensures later { D.faults desk.old ≤ D.faults desk.new }
    ensures cause { OnErr result (Rose (D.faults desk.old) (D.faults desk.new)) }
    ensures no_fault { OnOk result (D.faults desk.new ≡ D.faults desk.old) }
    ensures sends { Sends D.tells (D.shows desk.old) (D.shows desk.new) c.number pending.old pending.new
        (origins_text origins.now) result }
{
    pending.put(desk, c, count_line(b"records", origins.len()).as_slice())?;
    let mut at = 0;
    while let Some(origin) = origins.get(at) {
        at += 1;
        pending.put(desk, c, pair_line(&(at as u64, *origin)).as_slice())?;
    }
    Ok(())
}

/// Pairs, under a word and their count.
fn put_pairs<D: Desk>(
    pending: &mut Pending,
    desk: &mut D,
    c: Chan,
    word: &[u8],
    pairs: &NumberPairs,
) -> Result<(), WriteStop>
    requires { length word.now ≤ 9 }
    ensures later { D.faults desk.old ≤ D.faults desk.new }
    ensures cause { OnErr result (Rose (D.faults desk.old) (D.faults desk.new)) }
    ensures no_fault { OnOk result (D.faults desk.new ≡ D.faults desk.old) }
    ensures sends { Sends D.tells (D.shows desk.old) (D.shows desk.new) c.number pending.old pending.new
        (pairs_text word.now pairs.now) result }
{
    pending.put(desk, c, count_line(word, pairs.len()).as_slice())?;
    let mut at = 0;
    while let Some(pair) = pairs.get(at) {
        at += 1;
        pending.put(desk, c, pair_line(pair).as_slice())?;
    }
    Ok(())
}

/// Removed numbers, under their count.
fn put_removed<D: Desk>(
    pending: &mut Pending,
    desk: &mut D,
    c: Chan,
    removed: &Numbers,
) -> Result<(), WriteStop>
    ensures later { D.faults desk.old ≤ D.faults desk.new }
    ensures cause { OnErr result (Rose (D.faults desk.old) (D.faults desk.new)) }
    ensures no_fault { OnOk result (D.faults desk.new ≡ D.faults desk.old) }
    ensures sends { Sends D.tells (D.shows desk.old) (D.shows desk.new) c.number pending.old pending.new
        (removed_text removed.now) result }
{
    pending.put(desk, c, count_line(b"removed", removed.len()).as_slice())?;
    let mut at = 0;
    while let Some(number) = removed.get(at) {
        at += 1;
        pending.put(desk, c, number_line(*number).as_slice())?;
    }
    Ok(())
}

/// All lines of the history.
fn put_history<D: Desk>(
    pending: &mut Pending,
    desk: &mut D,
    c: Chan,
    h: &HistoryFile,
) -> Result<(), WriteStop>
    ensures later { D.faults desk.old ≤ D.faults desk.new }
    ensures cause { OnErr result (Rose (D.faults desk.old) (D.faults desk.new)) }
    ensures no_fault { OnOk result (D.faults desk.new ≡ D.faults desk.old) }
    ensures sends { Sends D.tells (D.shows desk.old) (D.shows desk.new) c.number pending.old pending.new
        (text_of h.now) result }
{
    pending.put(desk, c, b"BREP-HISTORY 1\n")?;
    put_origins(pending, desk, c, &h.origins)?;
    put_pairs(pending, desk, c, b"modified", &h.modified)?;
    put_pairs(pending, desk, c, b"generated", &h.generated)?;
    put_removed(pending, desk, c, &h.removed)?;
    pending.put(desk, c, b"end\n")
}

/// Appends the text of the history over a channel, in pieces of some thousand bytes. Answers how many bytes it has, or
/// the last number of 64 bits where it has more. Takes no memory of its own.
pub fn emit<D: Desk>(h: &HistoryFile, desk: &mut D, c: Chan) -> Result<u64, WriteStop>
    ensures later { D.faults desk.old ≤ D.faults desk.new }
    ensures cause { OnErr result (Rose (D.faults desk.old) (D.faults desk.new)) }
    ensures no_fault { OnOk result (D.faults desk.new ≡ D.faults desk.old) }
    ensures whole { OnOk result
        (AppendedWhole D.tells (D.shows desk.old) (D.shows desk.new) c.number (text_of h.now)) }
    ensures size { IfOk result (λ n. n ≡ counted (length (text_of h.now))) }
    ensures part { IfErr result (λ e.
        AppendedPart D.tells (D.shows desk.old) (D.shows desk.new) c.number (text_of h.now) e.taken) }
    ensures strays { KeepsStraysIfOpen D.tells (D.shows desk.old) (D.shows desk.new) c.number }
    ensures writing_calls { RoseWritingCalls D.tells (D.shows desk.old) (D.shows desk.new) }
{
    let mut pending = Pending::new();
    put_history(&mut pending, desk, c, h)?;
    pending.flush(desk, c)?;
    Ok(pending.taken())
}
