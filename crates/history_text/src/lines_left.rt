//! The lines of a text, taken one after another.
ghost use Rattle.history_text.specs.LineForms.{count_of_line, cut_at, text_of_line};
ghost use Rattle.history_text.specs.Reading.{line_at};
ghost use Rattle.history_text.specs.Spelled.{Takes};
ghost use Rattle.history_text.specs.TakenLine.{IsAtEnd, IsFirstLine};
ghost use Rattle.std.specs.Prelude.{◌≡◌, ◌+◌, ◌^◌, ◌<◌, length};

use crate::fault::HistoryFault;
use crate::line_forms::{count_of_line, cut_at, is_same};
use std::marker::Model;

/// A line without the byte 10 that ends it, and its number, counted from 1.
#[derive(Clone, Copy)]
pub(crate) struct TakenLine<'a> {
    pub(crate) text: &'a [u8],
    pub(crate) number: u64,
}

/// The bytes that are still to be read, and the number of the line that they begin with.
#[derive(Drop)]
pub(crate) struct LinesLeft<'a> {
    bytes: &'a [u8],
    number: u64,
}

impl<'a> Model for LinesLeft<'a> {
    ghost use Rattle.history_text.specs.Reading.{Left};
    ghost use Rattle.std.specs.Prelude.{◌+◌, ◌<◌, ◌^◌, length};

    ghost Value = { Left };

    ghost view = { λ l. record { number = l.number; bytes = l.bytes.now } };

    ghost invariant = { λ l. l.number + length l.bytes.now < 2 ^ 64 };
}

impl<'a> LinesLeft<'a> {
    /// All lines of these bytes.
    pub(crate) fn of(bytes: &'a [u8]) -> LinesLeft<'a>
        ensures { result ≡ record { number = 1; bytes = bytes.now } }
    {
        LinesLeft { bytes, number: 1 }
    }

    /// The next line. A line that has no byte 10 isn't there.
    #[tactic(auto, using(crate::proofs::LineCuts::cut_shorter))]
    pub(crate) fn next(&mut self) -> Result<TakenLine<'a>, HistoryFault>
        ensures { IsFirstLine self.old self.new result }
    {
        let number = self.number;
        match cut_at(self.bytes, b'\n') {
            None => Err(HistoryFault::NotHistory { line: number }),
            Some((text, rest)) => {
                self.bytes = rest;
                self.number = number + 1;
                Ok(TakenLine { text, number })
            }
        }
    }

    /// Takes a line that is just this text.
    pub(crate) fn text(&mut self, text: &[u8]) -> Result<(), HistoryFault>
        ensures { Takes (line_at (text_of_line text.now) self.old) self.new result }
    {
        let line = self.next()?;
        if is_same(line.text, text) {
            Ok(())
        } else {
            Err(HistoryFault::NotHistory { line: line.number })
        }
    }

    /// Takes a line of a word and a count.
    pub(crate) fn count(&mut self, word: &[u8]) -> Result<u64, HistoryFault>
        ensures { Takes (line_at (count_of_line word.now) self.old) self.new result }
    {
        let line = self.next()?;
        count_of_line(word, line.text).ok_or(HistoryFault::NotHistory { line: line.number })
    }

    /// Refuses a line that is still there.
    pub(crate) fn end(&self) -> Result<(), HistoryFault>
        ensures { IsAtEnd self.now result }
    {
        if self.bytes.is_empty() {
            Ok(())
        } else {
            Err(HistoryFault::NotHistory { line: self.number })
        }
    }
}
