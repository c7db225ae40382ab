//! The reader of a curve in either dimension: the trimmed and offset curves around it, then the curve itself.
ghost use Rattle.std.specs.Prelude.{◌≡◌, ◌<◌, Err, IfOk, List, [], true};
ghost use Rattle.entry_readers.specs.Reading.{more};
ghost use Rattle.entry_readers.specs.Takes.{StepsOn};
ghost use Rattle.brep_tokens.specs.declared.text.Token.{Token};
ghost use Rattle.curve_tables.specs.ChainSteps.{OpensCode, OpensLeaf, OpensWrap, StaysAt, StepsFrom};
ghost use Rattle.curve_tables.specs.Chains.{chain_at, is_code};
ghost use Rattle.curve_tables.specs.ChainLeft.{AnswersCode, Settles, TakesChain, Waits, at_stage, chain_left};
ghost use Rattle.curve_tables.specs.declared.stage.Stage.TheVariants as stages;

use crate::counts::{plain_decimals, wrap_decimals};
use crate::parts::{Dimension, Form, Frame, Frames, Wrap};
use crate::stage::{After, Stage};
use brep_tokens::{ReadCode, ReadFault, ReadStop, Token};
use entry_readers::{DecimalsDue, KnotsDue, fault_at, number_due};
use std::alloc::{AllocError, Global};
use std::mem;

/// What was taken of a curve, and what is due.
#[derive(Drop)]
pub struct ChainReader {
    pub dimension: Dimension,
    /// How many further codes may come.
    pub room: u64,
    pub frames: Frames,
    pub stage: Stage,
    pub texts: DecimalsDue,
    pub knots: KnotsDue,
    pub alloc: Global,
}

/// Is the number the code of a curve?
fn known(n: u64) -> bool
    ensures { result ≡ is_code n }
{
    1 <= n && n <= 9
}

/// The code of a curve is due.
fn code_due(t: &Token) -> Result<u64, ReadFault>
    ensures answer { AnswersCode t.now result }
    ensures known { IfOk result (λ n. is_code n ≡ true) }
{
    let n = number_due(t)?;
    if known(n) {
        Ok(n)
    } else {
        Err(fault_at(ReadCode::UnknownCode, n, 0, t))
    }
}

impl ChainReader {
    /// No token was taken yet, and so many codes may come, one inside another.
    #[tactic(auto, using(crate::proofs::Waiting::no_curve))]
    pub fn new(alloc: Global, dimension: Dimension, room: u64) -> ChainReader
        ensures left { (ts : List Token) → chain_left result ts ≡ chain_at dimension room [] ts }
        ensures waits { Waits result }
        ensures open { chain_left result [] ≡ Err more }
    {
        ChainReader {
            dimension,
            room,
            frames: Frames::new(alloc),
            stage: Stage::Code,
            texts: DecimalsDue::new(alloc, 0),
            knots: KnotsDue::new(alloc, 0),
            alloc,
        }
    }

    /// A decimal.
    fn take_text(&mut self, t: &Token, after: After) -> Result<(), ReadStop>
        requires { 0 < self.old.texts.due }
        ensures step { StaysAt (stages.Texts after) self.old t.now self.new result }
        ensures stage { self.new.stage ≡ self.old.stage }
    {
        self.texts.take(t)
    }

    /// A knot or a multiplicity.
    fn take_knot(&mut self, t: &Token, form: Form) -> Result<(), ReadStop>
        requires { 0 < self.old.knots.due }
        ensures step { StaysAt (stages.Knots form) self.old t.now self.new result }
        ensures stage { self.new.stage ≡ self.old.stage }
    {
        self.knots.take(t)
    }

    /// The code of a curve.
    fn take_code(&mut self, t: &Token) -> Result<(), ReadStop>
        ensures { StepsFrom stages.Code self.old t.now self.new result }
    {
        match code_due(t) {
            Err(f) => Err(ReadStop::Fault(f)),
            Ok(code) => {
                if self.room == 0 {
                    return Err(ReadStop::Fault(fault_at(ReadCode::NestLimit, 65, 64, t)));
                }
                self.room -= 1;
                self.open(code);
                Ok(())
            }
        }
    }

    /// What a code begins is due.
    fn open(&mut self, code: u64)
        requires { is_code code ≡ true }
        ensures { OpensCode self.old code self.new }
    {
        match code {
            6 => self.stage = Stage::BezierRational,
            7 => self.stage = Stage::SplineRational,
            8 => self.wrap(Wrap::Trimmed),
            9 => self.wrap(Wrap::Offset),
            _ => {
                let decimals = plain_decimals(self.dimension, code);
                self.expect(Form::Plain { code: code as u8 }, decimals, 0);
            }
        }
    }

    /// Decimals are due, and then the basis.
    fn wrap(&mut self, wrap: Wrap)
        ensures { OpensWrap self.old wrap self.new }
    {
        self.texts = DecimalsDue::new(self.alloc, wrap_decimals(self.dimension, wrap));
        self.stage = Stage::Texts {
            after: After::Basis { wrap },
        };
    }

    /// So many decimals are due, and then so many knots.
    pub fn expect(&mut self, form: Form, decimals: u64, knots: u64)
        ensures { OpensLeaf self.old form decimals knots self.new }
    {
        self.texts = DecimalsDue::new(self.alloc, decimals);
        self.stage = Stage::Texts {
            after: After::Leaf { form, knots },
        };
    }

    /// Takes the token that is due.
    fn step(&mut self, t: &Token) -> Result<(), ReadStop>
        requires { Waits self.old }
        ensures { StepsOn (chain_left self.old) t.now (chain_left self.new) result }
    {
        match self.stage {
            Stage::Code => self.take_code(t),
            Stage::BezierRational => self.take_bezier_rational(t),
            Stage::BezierDegree { rational } => self.take_bezier_degree(t, rational),
            Stage::SplineRational => self.take_spline_rational(t),
            Stage::SplineFlag { rational } => self.take_spline_flag(t, rational),
            Stage::SplineDegree { rational, flag } => self.take_spline_degree(t, rational, flag),
            Stage::SplinePoles {
                rational,
                flag,
                degree,
            } => self.take_spline_poles(t, rational, flag, degree),
            Stage::SplineKnots { form, decimals } => self.take_spline_knots(t, form, decimals),
            Stage::Texts { after } => self.take_text(t, after),
            Stage::Knots { form } => self.take_knot(t, form),
        }
    }

    /// The form, where no knot is due.
    fn past_knots(&mut self, form: Form) -> Option<Form>
        ensures { Settles (at_stage (stages.Knots form) self.old) self.new result }
    {
        self.stage = Stage::Knots { form };
        if self.knots.is_done() {
            Some(form)
        } else {
            None
        }
    }

    /// Goes on behind the decimals.
    fn past_texts(&mut self, after: After) -> Result<Option<Form>, AllocError>
        requires { self.old.texts.due ≡ 0 }
        ensures { IfOk result (λ p. Settles (at_stage (stages.Texts after) self.old) self.new p) }
    {
        match after {
            After::Leaf { form, knots } => {
                self.knots = KnotsDue::new(self.alloc, knots);
                Ok(self.past_knots(form))
            }
            After::Basis { wrap } => {
                let taken = mem::replace(&mut self.texts, DecimalsDue::new(self.alloc, 0));
                self.frames.push(Frame {
                    wrap,
                    texts: taken.texts,
                })?;
                self.stage = Stage::Code;
                Ok(None)
            }
        }
    }

    /// Goes on to the first form of which a token is due.
    fn settle(&mut self) -> Result<Option<Form>, AllocError>
        ensures { IfOk result (λ p. Settles (chain_left self.old) self.new p) }
    {
        match self.stage {
            Stage::Texts { after } => {
                if self.texts.due == 0 {
                    self.past_texts(after)
                } else {
                    Ok(None)
                }
            }
            Stage::Knots { form } => Ok(self.past_knots(form)),
            _ => Ok(None),
        }
    }

    /// Takes a token. Where the curve is whole with it, it gives its form.
    #[tactic(auto, using(crate::proofs::Waiting::waits_open))]
    pub fn take(&mut self, t: &Token) -> Result<Option<Form>, ReadStop>
        requires { Waits self.old }
        ensures { TakesChain (chain_left self.old) t.now self.new result }
    {
        self.step(t)?;
        Ok(self.settle()?)
    }
}
