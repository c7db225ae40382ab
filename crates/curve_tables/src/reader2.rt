//! The reader of a 2D curve.
ghost use Rattle.std.specs.Prelude.{◌≡◌, Err, IfOk, List, Ok, []};
ghost use Rattle.entry_readers.specs.Reading.{more};
ghost use Rattle.entry_readers.specs.Takes.{Takes};
ghost use Rattle.brep_tokens.specs.declared.text.Token.{Token};
ghost use Rattle.curve_tables.specs.ChainLeft.{taken};
ghost use Rattle.curve_tables.specs.Curves.{curve2_at, curve2_of};
ghost use Rattle.curve_tables.specs.Left.{IsDone2, IsWaiting2, curve2_left};

use crate::chain::ChainReader;
use crate::curve2::{Curve2, framed, leaf};
use crate::parts::{Dimension, Form};
use brep_tokens::{Progress, ReadStop, Token};
use entry_readers::{DecimalsDue, EntryReader, KnotsDue};
use std::alloc::{AllocError, Global};
use std::mem;

/// Takes the tokens of an entry of the section `Curve2ds`.
#[derive(Drop)]
pub struct Curve2Reader {
    chain: ChainReader,
    whole: Option<Curve2>,
}

/// The curve that was taken, of this form.
fn assemble(chain: &mut ChainReader, form: Form) -> Result<Curve2, AllocError>
    ensures { IfOk result (λ c. c ≡ curve2_of (taken chain.old form)) }
{
    let texts = mem::replace(&mut chain.texts, DecimalsDue::new(chain.alloc, 0)).texts;
    let knots = mem::replace(&mut chain.knots, KnotsDue::new(chain.alloc, 0));
    let leaf = leaf(form, texts, knots.texts, knots.counts);
    framed(chain.alloc, &mut chain.frames, leaf)
}

impl Curve2Reader {
    /// No token was taken yet.
    pub fn new(alloc: Global) -> Curve2Reader
        ensures left { (ts : List Token) → curve2_left result ts ≡ curve2_at ts }
        ensures waits { IsWaiting2 result }
        ensures open { curve2_left result [] ≡ Err more }
    {
        Curve2Reader {
            chain: ChainReader::new(alloc, Dimension::Plane, 64),
            whole: None,
        }
    }

    /// Takes a token: it is the first one that isn't accepted, or more are due, or the curve is whole with it.
    pub fn take(&mut self, t: &Token) -> Result<Progress, ReadStop>
        requires { IsWaiting2 self.old }
        ensures { Takes (curve2_left self.old) t.now (curve2_left self.new)
            (IsWaiting2 self.new) (IsDone2 self.new) result }
    {
        match self.chain.take(t)? {
            None => Ok(Progress::More),
            Some(form) => {
                self.whole = Some(assemble(&mut self.chain, form)?);
                Ok(Progress::Whole)
            }
        }
    }

    /// The curve.
    pub fn done(self) -> Curve2
        requires { IsDone2 self }
        ensures { (rest : List Token) → curve2_left self rest ≡ Ok (result, rest) }
    {
        let Curve2Reader { whole, .. } = self;
        match whole {
            Some(curve) => curve,
            None => unreachable!(),
        }
    }
}

impl EntryReader for Curve2Reader {
    type Entry = Curve2;

    ghost use Rattle.curve_tables.specs.Curves.{curve2_at};
    ghost use Rattle.curve_tables.specs.Left.{IsDone2, IsWaiting2, curve2_left};

    ghost read = { curve2_at };

    ghost left = { curve2_left };

    ghost waits = { IsWaiting2 };

    ghost whole = { IsDone2 };

    fn begin(alloc: Global) -> Curve2Reader {
        Curve2Reader::new(alloc)
    }

    fn take_token(&mut self, t: &Token) -> Result<Progress, ReadStop> {
        self.take(t)
    }

    fn finish(self) -> Curve2 {
        self.done()
    }
}
