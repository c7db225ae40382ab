//! The reader of the root use.
ghost use Rattle.brep_file.specs.RecordLeft.{IsDoneRoot, IsWaitingRoot, Says, at_root, root_left, TakesRoot};
ghost use Rattle.brep_file.specs.RecordReading.{root_at, root_named, use_of};
ghost use Rattle.brep_file.specs.declared.reader.root.Stage.TheVariants as stages;
ghost use Rattle.brep_file.specs.declared.uses.FileUse.{FileUse};
ghost use Rattle.brep_tokens.specs.declared.text.Token.{Token};
ghost use Rattle.entry_readers.specs.Reading.{more};
ghost use Rattle.std.specs.Prelude.{◌≡◌, ◌≤◌, List, [], Ok, Err, IfOk};

use crate::reader::part::PartReader;
use crate::reader::uses::signed_number;
use crate::uses::FileUse;
use brep_tokens::{Progress, ReadCode, ReadFault, ReadStop, Token};
use entry_readers::{fault_at, ranged_due};
use orientation::Turn;

/// What is due next.
#[derive(Clone, Copy)]
pub(crate) enum Stage {
    Sign,
    Location { turn: Turn, number: u32 },
    Whole(FileUse),
}

/// Takes the root use of a file with so many locations and records.
#[derive(Drop)]
pub(crate) struct RootReader {
    locations: u32,
    records: u32,
    stage: Stage,
}

/// A sign with the number of a record is due.
fn root_due(records: u32, t: &Token) -> Result<(Turn, u64), ReadFault>
    ensures says { Says (root_named records t.now (use_of t.now.text)) result }
    ensures within { IfOk result (λ u. u.1 ≤ records) }
{
    let (turn, number) = match signed_number(t.bytes()) {
        Some(signed) => signed,
        None => return Err(fault_at(ReadCode::UseExpected, 0, 0, t)),
    };
    if 1 <= number && number <= u64::from(records) {
        Ok((turn, number))
    } else {
        let greatest = u64::from(records);
        Err(fault_at(ReadCode::IndexOutOfRange, number, greatest, t))
    }
}

impl RootReader {
    /// No token was taken yet.
    pub(crate) fn new(locations: u32, records: u32) -> RootReader
        ensures left { (ts : List Token) → root_left result ts ≡ root_at locations records ts }
        ensures waits { IsWaitingRoot result }
        ensures open { root_left result [] ≡ Err more }
    {
        RootReader {
            locations,
            records,
            stage: Stage::Sign,
        }
    }

    fn take_sign(&mut self, t: &Token) -> Result<Progress, ReadStop>
        ensures { TakesRoot (at_root stages.Sign self.old) t.now self.new result }
    {
        let (turn, number) = root_due(self.records, t)?;
        self.stage = Stage::Location {
            turn,
            number: number as u32,
        };
        Ok(Progress::More)
    }

    fn take_location(&mut self, t: &Token, turn: Turn, number: u32) -> Result<Progress, ReadStop>
        ensures { TakesRoot (at_root (stages.Location turn number) self.old) t.now self.new result }
    {
        let location = ranged_due(0, u64::from(self.locations), t)? as u32;
        self.stage = Stage::Whole(FileUse {
            turn,
            number,
            location,
        });
        Ok(Progress::Whole)
    }
}

impl PartReader for RootReader {
    type Part = FileUse;

    ghost Held = { FileUse };

    ghost view = { λ root. root };

    ghost left = { root_left };

    ghost waits = { IsWaitingRoot };

    ghost whole = { IsDoneRoot };

    fn take_token(&mut self, t: &Token) -> Result<Progress, ReadStop> {
        match self.stage {
            Stage::Sign => self.take_sign(t),
            Stage::Location { turn, number } => self.take_location(t, turn, number),
            Stage::Whole(_) => unreachable!(),
        }
    }

    fn finish(self) -> FileUse {
        match self.stage {
            Stage::Whole(root) => root,
            _ => unreachable!(),
        }
    }
}
