//! The reader of so many records.
ghost use Rattle.brep_file.specs.RecordLeft.{AreWaitingRecords, IsVersionRead, records_at, records_left, so_far_of};
ghost use Rattle.brep_file.specs.RecordReading.{SoFar as ReadSoFar};
ghost use Rattle.entry_readers.specs.Reading.{more};
ghost use Rattle.entry_readers.specs.Takes.{ReadsAs};
ghost use Rattle.std.specs.Prelude.{◌≡◌, ◌<◌, [], Err};

use crate::reader::part::PartReader;
use crate::reader::record::RecordReader;
use crate::reader::state::{RecordBounds, SoFar};
use brep_tokens::{Progress, ReadStop, Token};
use std::alloc::Global;

/// Takes the tokens of so many records. The number that a file claims takes no memory before its records come.
#[derive(Drop)]
pub(crate) struct RecordsReader {
    bounds: RecordBounds,
    so_far: SoFar,
    due: u32,
    reader: RecordReader,
    alloc: Global,
}

impl RecordsReader {
    /// No token was taken yet.
    pub(crate) fn new(alloc: Global, bounds: RecordBounds) -> RecordsReader
        requires some { 0 < bounds.records }
        requires version { IsVersionRead bounds.version }
        ensures left { ReadsAs (records_left result) (records_at bounds) }
        ensures waits { AreWaitingRecords result }
        ensures open { records_left result [] ≡ Err more }
    {
        RecordsReader {
            bounds,
            so_far: SoFar::new(alloc),
            due: bounds.records,
            reader: RecordReader::new(alloc, bounds, 0),
            alloc,
        }
    }
}

impl PartReader for RecordsReader {
    type Part = SoFar;

    ghost Held = { ReadSoFar };

    ghost view = { so_far_of };

    ghost left = { records_left };

    ghost waits = { AreWaitingRecords };

    ghost whole = { λ r. r.due ≡ 0 };

    fn take_token(&mut self, t: &Token) -> Result<Progress, ReadStop> {
        match self.reader.take(t, self.bounds, &self.so_far)? {
            Progress::More => Ok(Progress::More),
            Progress::Whole => {
                let (head, gathered) = self.reader.done();
                self.so_far.push(head, gathered)?;
                self.due -= 1;
                if self.due == 0 {
                    Ok(Progress::Whole)
                } else {
                    self.reader = RecordReader::new(self.alloc, self.bounds, self.so_far.reps);
                    Ok(Progress::More)
                }
            }
        }
    }

    fn finish(self) -> SoFar {
        self.so_far
    }
}
