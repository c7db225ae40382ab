//! The reader of a record.
ghost use Rattle.brep_file.specs.RecordLeft.{AreFew, HasAllOfRecord, HasFewReps, HasReadRecord, IsDoneRecord};
ghost use Rattle.brep_file.specs.RecordLeft.{IsVersionRead, IsWaitingRecord, ReadsFew, TakesRecord, TakesRecordAt};
ghost use Rattle.brep_file.specs.RecordLeft.{head_after, most_uses, record_left, record_waits_at};
ghost use Rattle.brep_file.specs.RecordReading.{RecordBounds as ReadBounds, SoFar as ReadSoFar};
ghost use Rattle.entry_readers.specs.Reading.{more};
ghost use Rattle.entry_readers.specs.Takes.{ReadsAs};
ghost use Rattle.std.specs.Prelude.{◌≡◌, ◌<◌, ◌≤◌, ℕ, [], Err, None, length};
ghost use Rattle.tshape_data.specs.HeadLeft.{IsWaiting, head_left};
ghost use Rattle.tshape_data.specs.RepReading.{most_reps};

use crate::reader::state::{Gathered, RecordBounds, SoFar};
use crate::reader::uses::UsesReader;
use brep_tokens::{Progress, ReadStop, Token};
use std::alloc::Global;
use std::mem;
use tshape_data::laws::heads_are_exact;
use tshape_data::{Head, HeadBounds, HeadReader};

/// Takes the tokens of a record: its head, and then its uses.
#[derive(Drop)]
pub(crate) struct RecordReader {
    reader: HeadReader,
    head: Option<Head>,
    uses: UsesReader,
    alloc: Global,
}

/// A reader of a head after so many representations.
fn head_reader(alloc: Global, bounds: RecordBounds, reps: u64) -> HeadReader
    requires version { IsVersionRead bounds.version }
    requires few { reps ≤ most_reps }
    ensures left { ReadsAs (head_left result) (head_after bounds reps) }
    ensures waits { IsWaiting result }
    ensures open { head_left result [] ≡ Err more }
    ensures few { ReadsFew reps result }
{
    heads_are_exact();
    let tables = HeadBounds {
        reps,
        ..bounds.tables
    };
    HeadReader::new(alloc, tables, bounds.version)
}

impl RecordReader {
    /// No token was taken yet, and so many representations stand in the records before.
    pub(crate) fn new(alloc: Global, bounds: RecordBounds, reps: u64) -> RecordReader
        requires version { IsVersionRead bounds.version }
        requires few { reps ≤ most_reps }
        ensures left { HasAllOfRecord bounds reps result }
        ensures waits { (before : ℕ) → before ≤ most_uses → IsWaitingRecord before reps result }
        ensures open { (b : ReadBounds) (s : ReadSoFar) → record_left b s result [] ≡ Err more }
    {
        RecordReader {
            reader: head_reader(alloc, bounds, reps),
            head: None,
            uses: UsesReader::new(alloc),
            alloc,
        }
    }

    /// Takes a token, after the records that were read.
    pub(crate) fn take(
        &mut self,
        t: &Token,
        bounds: RecordBounds,
        so_far: &SoFar,
    ) -> Result<Progress, ReadStop>
        requires own { length so_far.now.seen.items < bounds.records }
        requires version { IsVersionRead bounds.version }
        requires waits { IsWaitingRecord so_far.now.uses so_far.now.reps self.old }
        ensures { TakesRecord bounds so_far.now self.old t.now self.new result }
    {
        match &self.head {
            None => self.take_head(t, bounds, so_far),
            Some(head) => {
                let parent = head.kind;
                self.uses.take(t, bounds, so_far, parent)
            }
        }
    }

    fn take_head(
        &mut self,
        t: &Token,
        bounds: RecordBounds,
        so_far: &SoFar,
    ) -> Result<Progress, ReadStop>
        requires none { self.old.head ≡ None }
        requires version { IsVersionRead bounds.version }
        requires waits { record_waits_at None so_far.now.uses so_far.now.reps self.old }
        ensures { TakesRecordAt None bounds so_far.now self.old t.now self.new result }
    {
        match self.reader.take(t)? {
            Progress::More => Ok(Progress::More),
            Progress::Whole => {
                let next = head_reader(self.alloc, bounds, 0);
                let reader = mem::replace(&mut self.reader, next);
                self.head = Some(reader.done());
                Ok(Progress::More)
            }
        }
    }

    /// The record's head and its uses, which are taken out.
    pub(crate) fn done(&mut self) -> (Head, Gathered)
        requires { (before : ℕ) × (reps : ℕ) × IsDoneRecord before reps self.old }
        ensures left { HasReadRecord self.old result.0 result.1 }
        ensures few { (before reps : ℕ) → IsDoneRecord before reps self.old → AreFew before result.1 }
        ensures reps { (before reps : ℕ) → IsDoneRecord before reps self.old → HasFewReps reps result.0 }
    {
        let uses = mem::replace(&mut self.uses, UsesReader::new(self.alloc));
        match self.head.take() {
            Some(head) => (head, uses.done()),
            None => unreachable!(),
        }
    }
}
