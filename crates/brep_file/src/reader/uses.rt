//! The reader of a record's uses.
ghost use Rattle.brep_file.specs.RecordLeft.{AreFew, HasAllUses, HasRoom, IsWaitingUses, Says, TakesUses, TakesUsesAt};
ghost use Rattle.brep_file.specs.RecordLeft.{bounds_of, most_uses, uses_left};
ghost use Rattle.brep_file.specs.RecordReading.{RecordBounds as ReadBounds, SoFar as ReadSoFar, above_at, fitting};
ghost use Rattle.brep_file.specs.RecordReading.{is_star, named_at, use_of};
ghost use Rattle.brep_file.specs.declared.reader.uses.Stage.TheVariants as stages;
ghost use Rattle.entry_readers.specs.Reading.{more};
ghost use Rattle.orientation.specs.Kinds.{rank_of};
ghost use Rattle.orientation.specs.declared.kind.Kind.{Kind};
ghost use Rattle.std.specs.Prelude.{◌≡◌, ◌+◌, ◌<◌, ◌≤◌, ℕ, [], Err, IfOk, length};

use crate::reader::state::{Gathered, MOST_USES, Named, RecordBounds, Seen, SoFar};
use brep_tokens::{Progress, ReadCode, ReadFault, ReadStop, Token, use_sign};
use entry_readers::{fault_at, ranged_due};
use orientation::{Kind, Turn, below, of_sign};
use std::alloc::Global;

/// The turn and the number that a text joins.
pub(crate) fn signed_number(text: &[u8]) -> Option<(Turn, u64)>
    ensures { result ≡ use_of text.now }
{
    let (sign, number) = use_sign(text)?;
    let turn = of_sign(sign)?;
    Some((turn, number))
}

fn star(text: &[u8]) -> bool
    ensures { result ≡ is_star text.now }
{
    text == b"*".as_slice()
}

/// What is known of the record above, of so many, that a number names.
fn above(records: u32, seen: &[Seen], number: u64, t: &Token) -> Result<Seen, ReadFault>
    requires { length seen.now < records }
    ensures says { Says (above_at records seen.now t.now number) result }
    ensures within { IfOk result (λ _. number ≤ records) }
{
    let records = u64::from(records);
    if number < 1 || number > records {
        return Err(fault_at(ReadCode::IndexOutOfRange, number, records, t));
    }
    match seen.get((records - number) as usize) {
        Some(child) => Ok(*child),
        None => {
            let own = records - seen.len() as u64;
            Err(fault_at(ReadCode::NotAbove, number, own, t))
        }
    }
}

/// The place of a kind in their order, from 1.
fn rank(kind: Kind) -> u64
    ensures { result ≡ rank_of kind }
{
    kind as u64 + 1
}

/// A child of a record of the kind `parent`, where so many uses stand before it: its kind is in order, and it is
/// neither too deep nor one use too many.
fn fit(
    bounds: RecordBounds,
    parent: Kind,
    uses: u32,
    t: &Token,
    child: Seen,
) -> Result<Seen, ReadFault>
    requires { uses ≤ most_uses }
    ensures says { Says (fitting (bounds_of bounds) parent uses t.now child) result }
    ensures shallow { IfOk result (λ c. c.depth < 512) }
    ensures room { IfOk result (λ _. uses < most_uses) }
{
    if !below(child.kind(), parent) {
        return Err(fault_at(ReadCode::KindOrder, rank(child.kind()), rank(parent), t));
    }
    if child.depth() >= 512 {
        let depth = u64::from(child.depth()) + 1;
        return Err(fault_at(ReadCode::TooDeep, depth, 512, t));
    }
    if uses >= MOST_USES {
        let count = u64::from(uses) + 1;
        return Err(fault_at(ReadCode::TooMany, count, u64::from(MOST_USES), t));
    }
    Ok(child)
}

/// A sign with the number of a record above is due.
fn named_due(
    bounds: RecordBounds,
    seen: &[Seen],
    parent: Kind,
    uses: u32,
    t: &Token,
) -> Result<Named, ReadFault>
    requires own { length seen.now < bounds.records }
    requires uses { uses ≤ most_uses }
    ensures says { Says (named_at (bounds_of bounds) seen.now parent uses t.now (use_of t.now.text)) result }
    ensures shallow { IfOk result (λ u. u.child.depth < 512) }
    ensures room { IfOk result (λ _. uses < most_uses) }
{
    let (turn, number) = match signed_number(t.bytes()) {
        Some(signed) => signed,
        None => return Err(fault_at(ReadCode::UseExpected, 0, 0, t)),
    };
    let child = above(bounds.records, seen, number, t)?;
    let child = fit(bounds, parent, uses, t, child)?;
    Ok(Named {
        turn,
        number: number as u32,
        child,
    })
}

/// What is due next.
#[derive(Clone, Copy)]
pub(crate) enum Stage {
    /// A sign with a number, or `*`.
    Sign,
    /// The number of a location.
    Location(Named),
    Whole,
}

/// Takes the uses of a record, and the `*` after the last.
#[derive(Drop)]
pub(crate) struct UsesReader {
    stage: Stage,
    gathered: Gathered,
}

impl UsesReader {
    /// No token was taken yet.
    pub(crate) fn new(alloc: Global) -> UsesReader
        ensures left { HasAllUses result }
        ensures waits { (before : ℕ) → before ≤ most_uses → IsWaitingUses before result }
        ensures open { (b : ReadBounds) (s : ReadSoFar) (parent : Kind) → uses_left b s parent result [] ≡ Err more }
    {
        UsesReader {
            stage: Stage::Sign,
            gathered: Gathered::new(alloc),
        }
    }

    /// Takes a token of a record of the kind `parent`, after those that were read.
    pub(crate) fn take(
        &mut self,
        t: &Token,
        bounds: RecordBounds,
        so_far: &SoFar,
        parent: Kind,
    ) -> Result<Progress, ReadStop>
        requires own { length so_far.now.seen.items < bounds.records }
        requires waits { IsWaitingUses so_far.now.uses self.old }
        ensures { TakesUses bounds so_far.now parent self.old t.now self.new result }
    {
        match self.stage {
            Stage::Sign => self.take_sign(t, bounds, so_far, parent),
            Stage::Location(named) => self.take_location(t, bounds, so_far, parent, named),
            Stage::Whole => unreachable!(),
        }
    }

    fn take_sign(
        &mut self,
        t: &Token,
        bounds: RecordBounds,
        so_far: &SoFar,
        parent: Kind,
    ) -> Result<Progress, ReadStop>
        requires own { length so_far.now.seen.items < bounds.records }
        requires few { AreFew so_far.now.uses self.old.gathered }
        ensures { TakesUsesAt stages.Sign bounds so_far.now parent self.old t.now self.new result }
    {
        if star(t.bytes()) {
            self.stage = Stage::Whole;
            return Ok(Progress::Whole);
        }
        let uses = so_far.uses + self.gathered.uses.len() as u32;
        let named = named_due(bounds, &so_far.seen, parent, uses, t)?;
        self.stage = Stage::Location(named);
        Ok(Progress::More)
    }

    fn take_location(
        &mut self,
        t: &Token,
        bounds: RecordBounds,
        so_far: &SoFar,
        parent: Kind,
        named: Named,
    ) -> Result<Progress, ReadStop>
        requires { HasRoom so_far.now.uses self.old.gathered named }
        ensures { TakesUsesAt (stages.Location named) bounds so_far.now parent self.old t.now self.new result }
    {
        let location = ranged_due(0, u64::from(bounds.tables.locations), t)? as u32;
        self.gathered.push(named, location)?;
        self.stage = Stage::Sign;
        Ok(Progress::More)
    }

    /// The uses.
    pub(crate) fn done(self) -> Gathered
        ensures { result ≡ self.gathered }
    {
        self.gathered
    }
}
