//! The reader of an entry of the section `Locations`.
ghost use Rattle.std.specs.Prelude.{◌≡◌, ◌≤◌, ◌<◌, List, [], ◌∷◌, ◌++◌, ◌⊎◌, length, Ok, Err, IfOk, OnErr, OnOk};
ghost use Rattle.brep_tokens.specs.declared.text.Token.{Token};
ghost use Rattle.entry_readers.specs.Reading.{more};
ghost use Rattle.entry_readers.specs.Takes.{Answers, HasRead, ReadsAs};
ghost use Rattle.location_table.specs.declared.entry.LocationEntry.{LocationEntry};
ghost use Rattle.location_table.specs.declared.reader.Stage.TheVariants as stages;
ghost use Rattle.location_table.specs.Held.{CanAdd, most_entries};
ghost use Rattle.location_table.specs.Left.{entry_of, location_left, HoldsFactors, IsDone, IsFresh, IsWaiting, IsWhole};
ghost use Rattle.location_table.specs.Left.{TakesAt, TakesEntry};
ghost use Rattle.location_table.specs.Locations.{code_at, location_at, signed_at};

use crate::entry::{Factor, Factors, LocationEntry};
use crate::limits::{factor_at, power_due};
use crate::section::Locations;
use brep_tokens::{Progress, ReadCode, ReadFault, ReadStop, Token};
use entry_readers::{DecimalsDue, fault_at, number_due, ranged_due};
use location_words::Word;
use std::alloc::{AllocError, Global};

/// What is due next.
#[derive(Clone, Copy)]
pub enum Stage {
    Code,
    Decimals,
    Place,
    Power(u32),
    WholeDatum,
    WholeProduct,
}

/// Takes the tokens of an entry: `1` and twelve decimals, or `2`, places with their powers, and `0`.
#[derive(Drop)]
pub struct LocationReader {
    stage: Stage,
    texts: DecimalsDue,
    factors: Factors,
    word: Word,
}

/// The code of an entry is due.
fn code_due(t: &Token) -> Result<u64, ReadFault>
    ensures answer { Answers code_at t.now result }
    ensures known { IfOk result (λ n. (n ≡ 1) ⊎ (n ≡ 2)) }
{
    let n = number_due(t)?;
    if n == 1 || n == 2 {
        Ok(n)
    } else {
        Err(fault_at(ReadCode::UnknownCode, n, 0, t))
    }
}

impl LocationReader {
    /// No token was taken yet.
    pub fn new(alloc: Global) -> LocationReader
        ensures left { (before : List LocationEntry) → ReadsAs (location_left before result) (location_at before) }
        ensures waits { (before : List LocationEntry) → IsWaiting before result }
        ensures open { (before : List LocationEntry) → location_left before result [] ≡ Err more }
    {
        LocationReader {
            stage: Stage::Code,
            texts: DecimalsDue::new(alloc, 12),
            factors: Factors::new(alloc),
            word: Word::identity(alloc),
        }
    }

    /// Takes a token. `before` is the section read so far, the same for each token of the entry.
    ///
    /// A place is a number from 1 to the number of entries before, or 0 for the end. A power is tested against the
    /// limits of words.
    pub fn take(&mut self, t: &Token, before: &Locations) -> Result<Progress, ReadStop>
        requires { IsWaiting before.now self.old }
        ensures { TakesEntry before.now self.old t.now self.new result }
    {
        match self.stage {
            Stage::Code => self.take_code(t),
            Stage::Decimals => self.take_decimal(t),
            Stage::Place => self.take_place(t, before),
            Stage::Power(place) => self.take_power(t, before, place),
            Stage::WholeDatum | Stage::WholeProduct => unreachable!(),
        }
    }

    fn take_code(&mut self, t: &Token) -> Result<Progress, ReadStop>
        requires { IsFresh self.old }
        ensures { (before : List LocationEntry) → TakesAt stages.Code before self.old t.now self.new result }
    {
        match code_due(t) {
            Err(f) => Err(ReadStop::Fault(f)),
            Ok(code) => {
                self.stage = if code == 1 {
                    Stage::Decimals
                } else {
                    Stage::Place
                };
                Ok(Progress::More)
            }
        }
    }

    fn take_decimal(&mut self, t: &Token) -> Result<Progress, ReadStop>
        requires { 0 < self.old.texts.due }
        ensures { (before : List LocationEntry) → TakesAt stages.Decimals before self.old t.now self.new result }
    {
        self.texts.take(t)?;
        if self.texts.due == 0 {
            self.stage = Stage::WholeDatum;
            Ok(Progress::Whole)
        } else {
            self.stage = Stage::Decimals;
            Ok(Progress::More)
        }
    }

    fn take_place(&mut self, t: &Token, before: &Locations) -> Result<Progress, ReadStop>
        requires { HoldsFactors before.now self.old }
        ensures { TakesAt stages.Place before.now self.old t.now self.new result }
    {
        match ranged_due(0, u64::from(before.len()), t) {
            Err(f) => Err(ReadStop::Fault(f)),
            Ok(place) => {
                if place == 0 {
                    self.stage = Stage::WholeProduct;
                    Ok(Progress::Whole)
                } else {
                    self.stage = Stage::Power(place as u32);
                    Ok(Progress::More)
                }
            }
        }
    }

    fn take_power(
        &mut self,
        t: &Token,
        before: &Locations,
        place: u32,
    ) -> Result<Progress, ReadStop>
        requires holds { HoldsFactors before.now self.old }
        requires from { 1 ≤ place }
        requires earlier { place ≤ length before.now }
        ensures { TakesAt (stages.Power place) before.now self.old t.now self.new result }
    {
        match power_due(t) {
            Err(f) => Err(ReadStop::Fault(f)),
            Ok(power) => self.take_factor(t, before, place, power),
        }
    }

    /// Takes the power of a factor.
    fn take_factor(
        &mut self,
        t: &Token,
        before: &Locations,
        place: u32,
        power: i64,
    ) -> Result<Progress, ReadStop>
        requires answer { (rest : List Token) → signed_at (t.now ∷ rest) ≡ Ok (power, rest) }
        requires holds { HoldsFactors before.now self.old }
        requires from { 1 ≤ place }
        requires earlier { place ≤ length before.now }
        ensures { TakesAt (stages.Power place) before.now self.old t.now self.new result }
    {
        let word = factor_at(&self.word, before.word(place), power, t)?;
        self.word = word;
        self.stage = Stage::Place;
        self.factors.push(Factor { place, power })?;
        Ok(Progress::More)
    }

    /// The entry. The last token that was taken made it whole.
    pub fn done(self) -> LocationEntry
        requires { IsWhole self }
        ensures entry { result ≡ entry_of self }
        ensures read { (before : List LocationEntry) → HasRead (location_left before self) result }
        ensures can_add { (before : List LocationEntry) → IsDone before self → CanAdd before result }
    {
        let LocationReader {
            stage,
            texts,
            factors,
            ..
        } = self;
        match stage {
            Stage::WholeDatum => LocationEntry::Datum(texts.texts),
            _ => LocationEntry::Product(factors),
        }
    }

    /// Appends the entry to the section that it was read after. Its word is the one that was multiplied out while it
    /// was read.
    pub fn add_to(self, section: &mut Locations) -> Result<(), AllocError>
        requires done { IsDone section.old self }
        requires room { length section.old < most_entries }
        ensures read { HasRead (location_left section.old self) (entry_of self) }
        ensures ok { OnOk result (section.new ≡ section.old ++ entry_of self ∷ []) }
        ensures err { OnErr result (section.new ≡ section.old) }
    {
        let LocationReader {
            stage,
            texts,
            factors,
            word,
        } = self;
        match stage {
            Stage::WholeDatum => section.add_datum(texts.texts),
            _ => section.add_product(factors, word),
        }
    }
}
