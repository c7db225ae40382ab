//! The readers of the parts of a file.
ghost use Rattle.brep_tokens.specs.declared.text.Token.{Token};
ghost use Rattle.entry_readers.specs.Entries.{entries_left};
ghost use Rattle.entry_readers.specs.Reading.{Read};
ghost use Rattle.entry_readers.specs.Takes.{Takes};
ghost use Rattle.location_table.specs.SectionLeft.{IsReading as AreWaitingLocations, locations_left};
ghost use Rattle.location_table.specs.declared.entry.LocationEntry.{LocationEntry};
ghost use Rattle.std.specs.Prelude.{◌≡◌, ◌<◌, List, Ok};

use brep_tokens::{Progress, ReadStop, Token};
use entry_readers::{EntryReader, Section};
use location_table::{Locations, LocationsReader};

/// Takes the tokens of one part of a file.
pub(crate) trait PartReader: Drop {
    /// What is read.
    type Part: Drop;

    // what a part stands for
    ghost Held: { Type 0 };

    ghost view: { Self.Part → Held };

    // what is left to read
    ghost left: { Self → List Token → Read Held };

    // a token is due
    ghost waits: { Self → Type 0 };

    // the part is whole
    ghost whole: { Self → Type 0 };

    /// Takes a token.
    fn take_token(&mut self, t: &Token) -> Result<Progress, ReadStop>
        requires { waits self.old }
        ensures { Takes (left self.old) t.now (left self.new) (waits self.new) (whole self.new) result };

    /// The part.
    fn finish(self) -> Self::Part
        requires { whole self }
        ensures { (rest : List Token) → left self rest ≡ Ok (view result, rest) };
}

impl<R: EntryReader> PartReader for Section<R> {
    type Part = Vec<R::Entry>;

    ghost Held = { List R.Entry };

    ghost view = { λ xs. xs.items };

    ghost left = { λ r. entries_left R.read (R.left r.reader) r.entries.items r.due };

    ghost waits = { λ r. (0 < r.due) × R.waits r.reader };

    ghost whole = { λ r. r.due ≡ 0 };

    fn take_token(&mut self, t: &Token) -> Result<Progress, ReadStop> {
        self.take(t)
    }

    fn finish(self) -> Vec<R::Entry> {
        self.done()
    }
}

impl PartReader for LocationsReader {
    type Part = Locations;

    ghost Held = { List LocationEntry };

    ghost view = { λ entries. entries };

    ghost left = { locations_left };

    ghost waits = { AreWaitingLocations };

    ghost whole = { λ r. r.due ≡ 0 };

    fn take_token(&mut self, t: &Token) -> Result<Progress, ReadStop> {
        self.take(t)
    }

    fn finish(self) -> Locations {
        self.done()
    }
}
