//! What is known of the records that were read.
ghost use Rattle.brep_file.specs.RecordLeft.{gathered_of, most_uses, so_far_of};
ghost use Rattle.brep_file.specs.RecordReading.{gathered, none_gathered, nothing_read, with_record};
ghost use Rattle.tshape_data.specs.RepReading.{most_reps};
ghost use Rattle.tshape_data.specs.Sound.{rep_count};
ghost use Rattle.std.specs.Prelude.{◌≡◌, ◌+◌, ◌<◌, ◌≤◌, OnOk, length};

use crate::records::{Record, Records};
use crate::uses::{FileUse, FileUses};
use orientation::{Kind, Turn};
use std::alloc::{AllocError, Global};
use std::marker::Model;
use tshape_data::{Head, HeadBounds, Payload};

/// How many uses the records of a file may have together.
pub(crate) const MOST_USES: u32 = 16_777_216;

/// How many entries each table has, which version the file has, and how many records there are.
#[derive(Clone, Copy)]
pub(crate) struct RecordBounds {
    pub(crate) tables: HeadBounds,
    pub(crate) version: u8,
    pub(crate) records: u32,
}

/// What later records need to know of a record: its kind, and the depth of its tree.
#[derive(Clone, Copy)]
pub(crate) struct Seen {
    kind: Kind,
    depth: u16,
}

impl Model for Seen {
    ghost use Rattle.brep_file.specs.Seen.{Seen};

    ghost Value = { Seen };

    ghost view = { λ s. record { kind = s.kind; depth = s.depth } };

    ghost inverse = { λ s. record { kind = s.kind; depth = s.depth } };
}

impl Seen {
    pub(crate) fn kind(&self) -> Kind
        ensures { result ≡ self.now.kind }
    {
        self.kind
    }

    pub(crate) fn depth(&self) -> u16
        ensures { result ≡ self.now.depth }
    {
        self.depth
    }
}

/// A use's turn and number, and what is known of the record that it names.
#[derive(Clone, Copy)]
pub(crate) struct Named {
    pub(crate) turn: Turn,
    pub(crate) number: u32,
    pub(crate) child: Seen,
}

/// The uses of a record so far, and the greatest depth of the trees that they name.
#[derive(Drop)]
pub(crate) struct Gathered {
    pub(crate) uses: FileUses,
    pub(crate) depth: u16,
}

impl Gathered {
    pub(crate) fn new(alloc: Global) -> Gathered
        ensures { gathered_of result ≡ none_gathered }
    {
        Gathered {
            uses: FileUses::new(alloc),
            depth: 0,
        }
    }

    /// A use more, with its location.
    pub(crate) fn push(&mut self, named: Named, location: u32) -> Result<(), AllocError>
        ensures { OnOk result (gathered_of self.new ≡ gathered (gathered_of self.old) named location) }
    {
        let item = FileUse {
            turn: named.turn,
            number: named.number,
            location,
        };
        self.uses.push(item)?;
        self.depth = self.depth.max(named.child.depth());
        Ok(())
    }
}

/// The records so far, what is known of each, and how many uses and representations they have together.
#[derive(Drop)]
pub(crate) struct SoFar {
    pub(crate) records: Records,
    pub(crate) seen: Vec<Seen>,
    pub(crate) uses: u32,
    pub(crate) reps: u64,
}

/// How many representations stand in the data of a record.
fn reps_of(payload: &Payload) -> u64
    ensures { result ≡ rep_count payload.now }
{
    match payload {
        Payload::Vertex(data) => data.points.len() as u64,
        Payload::Edge(data) => data.reps.len() as u64,
        Payload::Face(_) | Payload::Nothing => 0,
    }
}

impl SoFar {
    pub(crate) fn new(alloc: Global) -> SoFar
        ensures { so_far_of result ≡ nothing_read }
    {
        SoFar {
            records: Records::new(alloc),
            seen: Vec::new(alloc),
            uses: 0,
            reps: 0,
        }
    }

    /// A record more.
    pub(crate) fn push(&mut self, head: Head, gathered: Gathered) -> Result<(), AllocError>
        requires depth { gathered.depth < 512 }
        requires uses { self.old.uses + length gathered.uses ≤ most_uses }
        requires reps { self.old.reps + rep_count head.payload ≤ most_reps }
        ensures { OnOk result (so_far_of self.new ≡ with_record (so_far_of self.old) head (gathered_of gathered)) }
    {
        let seen = Seen {
            kind: head.kind,
            depth: gathered.depth + 1,
        };
        let uses = gathered.uses.len() as u32;
        let reps = reps_of(&head.payload);
        let record = Record {
            head,
            uses: gathered.uses,
        };
        self.records.push(record)?;
        self.seen.push(seen)?;
        self.uses += uses;
        self.reps += reps;
        Ok(())
    }
}
