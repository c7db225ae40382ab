//! So many decimals are due, each with a number after it.
ghost use Rattle.std.specs.Prelude.{◌≡◌, ◌<◌, [], false, IsTrue, MatchBool};
ghost use Rattle.entry_readers.specs.Takes.{HasRead, StepsOn};
ghost use Rattle.entry_readers.specs.Left.{knots_left, knots_of};

use crate::due::{decimal_due, number_due};
use brep_tokens::{Decimals, Numbers, ReadStop, Token};
use std::alloc::Global;

/// The decimals and numbers taken so far, and how many pairs are not whole.
#[derive(Drop)]
pub struct KnotsDue {
    pub texts: Decimals,
    pub counts: Numbers,
    pub due: u64,
    pub half: bool,
}

impl KnotsDue {
    /// None was taken yet.
    pub fn new(alloc: Global, due: u64) -> KnotsDue
        ensures texts { result.texts ≡ [] }
        ensures counts { result.counts ≡ [] }
        ensures due { result.due ≡ due }
        ensures half { result.half ≡ false }
    {
        KnotsDue {
            texts: Decimals::new(alloc),
            counts: Numbers::new(alloc),
            due,
            half: false,
        }
    }

    /// Is none due any more?
    pub fn is_done(&self) -> bool
        ensures due { MatchBool result (self.now.due ≡ 0) (0 < self.now.due) }
        ensures whole { IsTrue result → HasRead (knots_left self.now) (knots_of self.now) }
    {
        self.due == 0
    }

    /// Takes a decimal or a number.
    pub fn take(&mut self, t: &Token) -> Result<(), ReadStop>
        requires { 0 < self.old.due }
        ensures { StepsOn (knots_left self.old) t.now (knots_left self.new) result }
    {
        if self.half {
            match number_due(t) {
                Err(f) => return Err(ReadStop::Fault(f)),
                Ok(n) => self.counts.push(n)?,
            }
            self.due -= 1;
            self.half = false;
        } else {
            if let Err(f) = decimal_due(t) {
                return Err(ReadStop::Fault(f));
            }
            self.texts.push(t.bytes())?;
            self.half = true;
        }
        Ok(())
    }
}
