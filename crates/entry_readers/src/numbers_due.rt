//! So many numbers are due.
ghost use Rattle.std.specs.Prelude.{◌≡◌, ◌<◌, ◌≤◌, []};
ghost use Rattle.entry_readers.specs.Takes.{StepsOn};
ghost use Rattle.entry_readers.specs.Left.{numbers_left};

use crate::due::ranged_due;
use brep_tokens::{Numbers, ReadStop, Token};
use std::alloc::Global;

/// The numbers taken so far, how many are still due, and the range of each.
#[derive(Drop)]
pub struct NumbersDue {
    pub numbers: Numbers,
    pub due: u64,
    pub low: u64,
    pub high: u64,
}

impl NumbersDue {
    /// None was taken yet.
    pub fn new(alloc: Global, low: u64, high: u64, due: u64) -> NumbersDue
        ensures numbers { result.numbers ≡ [] }
        ensures due { result.due ≡ due }
        ensures low { result.low ≡ low }
        ensures high { result.high ≡ high }
    {
        NumbersDue {
            numbers: Numbers::new(alloc),
            due,
            low,
            high,
        }
    }

    /// Takes one.
    pub fn take(&mut self, t: &Token) -> Result<(), ReadStop>
        requires { 0 < self.old.due }
        ensures steps { StepsOn (numbers_left self.old) t.now (numbers_left self.new) result }
        ensures due { self.new.due ≤ self.old.due }
    {
        match ranged_due(self.low, self.high, t) {
            Err(f) => return Err(ReadStop::Fault(f)),
            Ok(n) => self.numbers.push(n)?,
        }
        self.due -= 1;
        Ok(())
    }
}
