//! The reader of a 3D curve.
ghost use Rattle.std.specs.Prelude.{◌≡◌, ◌≤◌, Err, IfOk, List, Ok, []};
ghost use Rattle.entry_readers.specs.Reading.{more};
ghost use Rattle.entry_readers.specs.Takes.{Takes};
ghost use Rattle.brep_tokens.specs.declared.text.Token.{Token};
ghost use Rattle.curve_tables.specs.ChainLeft.{taken};
ghost use Rattle.curve_tables.specs.Curves.{curve3_at, curve3_of};
ghost use Rattle.curve_tables.specs.Left.{IsDone3, IsWaiting3, curve3_left};

use crate::chain::ChainReader;
use crate::curve3::{Curve3, framed, leaf};
use crate::parts::{Dimension, Form};
use brep_tokens::{Progress, ReadStop, Token};
use entry_readers::{DecimalsDue, EntryReader, KnotsDue};
use std::alloc::{AllocError, Global};
use std::mem;

/// Takes the tokens of an entry of the section `Curves`.
#[derive(Drop)]
pub struct Curve3Reader {
    chain: ChainReader,
    whole: Option<Curve3>,
}

/// The curve that was taken, of this form.
fn assemble(chain: &mut ChainReader, form: Form) -> Result<Curve3, AllocError>
    ensures { IfOk result (λ c. c ≡ curve3_of (taken chain.old form)) }
{
    let texts = mem::replace(&mut chain.texts, DecimalsDue::new(chain.alloc, 0)).texts;
    let knots = mem::replace(&mut chain.knots, KnotsDue::new(chain.alloc, 0));
    let leaf = leaf(form, texts, knots.texts, knots.counts);
    framed(chain.alloc, &mut chain.frames, leaf)
}

impl Curve3Reader {
    /// No token was taken yet. The nest is the number of codes that are open around the curve,
    /// 0 in the section `Curves`.
    pub fn new(alloc: Global, nest: u32) -> Curve3Reader
        requires { nest ≤ 64 }
        ensures left { (ts : List Token) → curve3_left result ts ≡ curve3_at nest ts }
        ensures waits { IsWaiting3 result }
        ensures open { curve3_left result [] ≡ Err more }
    {
        Curve3Reader {
            chain: ChainReader::new(alloc, Dimension::Space, 64 - nest as u64),
            whole: None,
        }
    }

    /// Takes a token: it is the first one that isn't accepted, or more are due, or the curve is whole with it.
    pub fn take(&mut self, t: &Token) -> Result<Progress, ReadStop>
        requires { IsWaiting3 self.old }
        ensures { Takes (curve3_left self.old) t.now (curve3_left self.new)
            (IsWaiting3 self.new) (IsDone3 self.new) result }
    {
        match self.chain.take(t)? {
            None => Ok(Progress::More),
            Some(form) => {
                self.whole = Some(assemble(&mut self.chain, form)?);
                Ok(Progress::Whole)
            }
        }
    }

    /// The curve.
    pub fn done(self) -> Curve3
        requires { IsDone3 self }
        ensures { (rest : List Token) → curve3_left self rest ≡ Ok (result, rest) }
    {
        let Curve3Reader { whole, .. } = self;
        match whole {
            Some(curve) => curve,
            None => unreachable!(),
        }
    }
}

impl EntryReader for Curve3Reader {
    type Entry = Curve3;

    ghost use Rattle.curve_tables.specs.Curves.{curve3_at};
    ghost use Rattle.curve_tables.specs.Left.{IsDone3, IsWaiting3, curve3_left};

    ghost read = { curve3_at 0 };

    ghost left = { curve3_left };

    ghost waits = { IsWaiting3 };

    ghost whole = { IsDone3 };

    fn begin(alloc: Global) -> Curve3Reader {
        Curve3Reader::new(alloc, 0)
    }

    fn take_token(&mut self, t: &Token) -> Result<Progress, ReadStop> {
        self.take(t)
    }

    fn finish(self) -> Curve3 {
        self.done()
    }
}
