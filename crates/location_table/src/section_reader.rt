//! The reader of the whole section `Locations`.
ghost use Rattle.std.specs.Prelude.{◌≡◌, ◌<◌, ◌≤◌, [], Err};
ghost use Rattle.entry_readers.specs.Reading.{more};
ghost use Rattle.entry_readers.specs.Takes.{HasRead, ReadsAs};
ghost use Rattle.location_table.specs.Held.{most_entries};
ghost use Rattle.location_table.specs.SectionLeft.{locations_left, IsReading, TakesLocations};
ghost use Rattle.location_table.specs.Sections.{locations_at};

use crate::reader::LocationReader;
use crate::section::Locations;
use brep_tokens::{Progress, ReadStop, Token};
use std::alloc::Global;
use std::mem;

/// Takes the tokens of so many entries, each after those before it. The number that a file claims takes no memory
/// before its entries come, and each word is multiplied out once.
#[derive(Drop)]
pub struct LocationsReader {
    section: Locations,
    due: u64,
    reader: LocationReader,
    alloc: Global,
}

impl LocationsReader {
    /// No token was taken yet.
    pub fn new(alloc: Global, due: u64) -> LocationsReader
        requires { (0 < due) × (due ≤ most_entries) }
        ensures left { ReadsAs (locations_left result) (locations_at due) }
        ensures reads { IsReading result }
        ensures open { locations_left result [] ≡ Err more }
    {
        LocationsReader {
            section: Locations::new(alloc),
            due,
            reader: LocationReader::new(alloc),
            alloc,
        }
    }

    /// Takes a token.
    pub fn take(&mut self, t: &Token) -> Result<Progress, ReadStop>
        requires { IsReading self.old }
        ensures { TakesLocations self.old t.now self.new result }
    {
        match self.reader.take(t, &self.section)? {
            Progress::More => Ok(Progress::More),
            Progress::Whole => {
                let reader = mem::replace(&mut self.reader, LocationReader::new(self.alloc));
                reader.add_to(&mut self.section)?;
                self.due -= 1;
                if self.due == 0 {
                    Ok(Progress::Whole)
                } else {
                    Ok(Progress::More)
                }
            }
        }
    }

    /// The section.
    pub fn done(self) -> Locations
        requires { self.due ≡ 0 }
        ensures { HasRead (locations_left self) result }
    {
        self.section
    }
}
