//! The reader of what one code begins: a surface, or what stands in front of a basis.
ghost use Rattle.std.specs.Prelude.{◌≡◌, ◌+◌, ◌<◌, IfOk, List, true};
ghost use Rattle.brep_tokens.specs.declared.text.Token.{Token};
ghost use Rattle.curve_tables.specs.Left.{IsWaiting3};
ghost use Rattle.surface_tables.specs.Bodies.{body_of};
ghost use Rattle.surface_tables.specs.Headers.{is_code};
ghost use Rattle.surface_tables.specs.PartLeft.{AnswersCode, Settles, StepsPart, TakesPart, Waits, at_stage};
ghost use Rattle.surface_tables.specs.PartLeft.{first_left, form_at, header_left, part_left};
ghost use Rattle.surface_tables.specs.Surfaces.{body_at, part_at};
ghost use Rattle.surface_tables.specs.declared.part.Stage.TheVariants as stages;
ghost use Rattle.surface_tables.specs.declared.parts.Form.TheVariants as forms;

use crate::counts::{plain_decimals, swept_decimals, wrap_decimals};
use crate::header::{
    BezierHeader, HeaderStep, SplineCounts, SplineFlags, bezier_step, counts_step, flags_step,
};
use crate::parts::{Body, Form, Frame, Net, Part, Wrap};
use crate::surface::Surface;
use brep_tokens::{Decimals, Progress, ReadCode, ReadFault, ReadStop, Token};
use curve_tables::Curve3Reader;
use entry_readers::{DecimalsDue, KnotsDue, fault_at, number_due};
use std::alloc::Global;
use std::mem;

/// What is due next.
#[derive(Clone, Copy)]
pub enum Stage {
    Code,
    Bezier { header: BezierHeader },
    Flags { header: SplineFlags },
    Counts { header: SplineCounts },
    Texts { form: Form },
    Curve { code: u8 },
    Uknots { net: Net, vknots: u64 },
    Vknots { net: Net },
}

/// Takes the tokens from a code on, up to a further code. The nest is the number of codes that are open around it.
#[derive(Drop)]
pub struct PartReader {
    pub nest: u32,
    stage: Stage,
    texts: DecimalsDue,
    uknots: KnotsDue,
    vknots: KnotsDue,
    curve: Curve3Reader,
    alloc: Global,
}

/// Is the number the code of a surface?
fn known(n: u64) -> bool
    ensures { result ≡ is_code n }
{
    1 <= n && n <= 11
}

/// The code of a surface is due.
fn code_due(t: &Token) -> Result<u64, ReadFault>
    ensures answer { AnswersCode t.now result }
    ensures known { IfOk result (λ n. is_code n ≡ true) }
{
    let n = number_due(t)?;
    if known(n) {
        Ok(n)
    } else {
        Err(fault_at(ReadCode::UnknownCode, n, 0, t))
    }
}

/// The decimals that were taken.
fn taken(alloc: Global, due: &mut DecimalsDue) -> Decimals
    ensures { result ≡ due.old.texts }
{
    mem::replace(due, DecimalsDue::new(alloc, 0)).texts
}

impl PartReader {
    /// No token was taken yet.
    pub fn new(alloc: Global, nest: u32) -> PartReader
        ensures left { (ts : List Token) → part_left result ts ≡ first_left nest ts }
        ensures waits { Waits result }
        ensures nest { result.nest ≡ nest }
    {
        PartReader {
            nest,
            stage: Stage::Code,
            texts: DecimalsDue::new(alloc, 0),
            uknots: KnotsDue::new(alloc, 0),
            vknots: KnotsDue::new(alloc, 0),
            curve: Curve3Reader::new(alloc, 0),
            alloc,
        }
    }

    /// The surface of the net, where no v knot is due.
    fn past_vknots(&mut self, net: Net) -> Option<Part>
        requires { self.old.nest < 64 }
        ensures part { Settles (at_stage (stages.Vknots net) self.old) self.new result }
        ensures nest { self.new.nest ≡ self.old.nest }
    {
        if !self.vknots.is_done() {
            self.stage = Stage::Vknots { net };
            return None;
        }
        let poles = taken(self.alloc, &mut self.texts);
        let u = mem::replace(&mut self.uknots, KnotsDue::new(self.alloc, 0));
        let v = mem::replace(&mut self.vknots, KnotsDue::new(self.alloc, 0));
        Some(Part::Leaf(Surface::BSpline {
            flags: net.flags,
            udegree: net.udegree,
            vdegree: net.vdegree,
            upoles: net.upoles,
            vpoles: net.vpoles,
            poles,
            uknots: u.texts,
            umult: u.counts,
            vknots: v.texts,
            vmult: v.counts,
        }))
    }

    /// Goes on to the v knots, where no u knot is due.
    fn past_uknots(&mut self, net: Net, vknots: u64) -> Option<Part>
        requires { self.old.nest < 64 }
        ensures part { Settles (at_stage (stages.Uknots net vknots) self.old) self.new result }
        ensures nest { self.new.nest ≡ self.old.nest }
    {
        if !self.uknots.is_done() {
            self.stage = Stage::Uknots { net, vknots };
            return None;
        }
        self.vknots = KnotsDue::new(self.alloc, vknots);
        self.past_vknots(net)
    }

    /// Goes on to what follows the decimals.
    fn after_texts(&mut self, form: Form) -> Option<Part>
        requires due { self.old.texts.due ≡ 0 }
        requires nested { self.old.nest < 64 }
        ensures part { Settles (at_stage (stages.Texts form) self.old) self.new result }
        ensures nest { self.new.nest ≡ self.old.nest }
    {
        match form {
            Form::Plain { code } => {
                let texts = taken(self.alloc, &mut self.texts);
                Some(Part::Leaf(Surface::Plain { code, texts }))
            }
            Form::Swept { code } => {
                self.curve = Curve3Reader::new(self.alloc, self.nest + 1);
                self.stage = Stage::Curve { code };
                None
            }
            Form::Bezier {
                urational,
                vrational,
                udegree,
                vdegree,
            } => Some(Part::Leaf(Surface::Bezier {
                urational,
                vrational,
                udegree,
                vdegree,
                poles: taken(self.alloc, &mut self.texts),
            })),
            Form::BSpline {
                net,
                uknots,
                vknots,
            } => {
                self.uknots = KnotsDue::new(self.alloc, uknots);
                self.past_uknots(net, vknots)
            }
            Form::Around { wrap } => {
                let texts = taken(self.alloc, &mut self.texts);
                Some(Part::Open(Frame { wrap, texts }))
            }
        }
    }

    /// Goes on to what follows the decimals, where none is due.
    fn past_texts(&mut self, form: Form) -> Option<Part>
        requires { self.old.nest < 64 }
        ensures part { Settles (at_stage (stages.Texts form) self.old) self.new result }
        ensures nest { self.new.nest ≡ self.old.nest }
    {
        if self.texts.due == 0 {
            self.after_texts(form)
        } else {
            self.stage = Stage::Texts { form };
            None
        }
    }

    /// The decimals of a form are due.
    fn expect(&mut self, form: Form, decimals: u64) -> Option<Part>
        requires { self.old.nest < 64 }
        ensures part { Settles (form_at (self.old.nest + 1) form decimals) self.new result }
        ensures nest { self.new.nest ≡ self.old.nest }
    {
        self.texts = DecimalsDue::new(self.alloc, decimals);
        self.past_texts(form)
    }

    /// What follows a number is due.
    fn go(&mut self, step: HeaderStep) -> Option<Part>
        requires { self.old.nest < 64 }
        ensures part { Settles (header_left (self.old.nest + 1) step) self.new result }
        ensures nest { self.new.nest ≡ self.old.nest }
    {
        match step {
            HeaderStep::Bezier(header) => self.stage = Stage::Bezier { header },
            HeaderStep::Flags(header) => self.stage = Stage::Flags { header },
            HeaderStep::Counts(header) => self.stage = Stage::Counts { header },
            HeaderStep::Whole(Body { form, decimals }) => return self.expect(form, decimals),
        }
        None
    }

    /// What a code begins is due.
    fn open(&mut self, code: u64) -> Option<Part>
        requires nested { self.old.nest < 64 }
        requires known { is_code code ≡ true }
        ensures part { Settles (part_at (self.old.nest + 1) code) self.new result }
        ensures nest { self.new.nest ≡ self.old.nest }
    {
        match code {
            6 => self.expect_swept(6),
            7 => self.expect_swept(7),
            8 => self.go(HeaderStep::Bezier(BezierHeader::Urational)),
            9 => self.go(HeaderStep::Flags(SplineFlags::Urational)),
            10 => self.expect_around(Wrap::Trimmed),
            11 => self.expect_around(Wrap::Offset),
            _ => self.expect(Form::Plain { code: code as u8 }, plain_decimals(code)),
        }
    }

    /// What stands in front of a curve is due.
    fn expect_swept(&mut self, code: u8) -> Option<Part>
        requires { self.old.nest < 64 }
        ensures part { Settles (body_at (self.old.nest + 1) (body_of (forms.Swept code))) self.new result }
        ensures nest { self.new.nest ≡ self.old.nest }
    {
        self.expect(Form::Swept { code }, swept_decimals(code as u64))
    }

    /// What stands in front of a basis is due.
    fn expect_around(&mut self, wrap: Wrap) -> Option<Part>
        requires { self.old.nest < 64 }
        ensures part { Settles (body_at (self.old.nest + 1) (body_of (forms.Around wrap))) self.new result }
        ensures nest { self.new.nest ≡ self.old.nest }
    {
        self.expect(Form::Around { wrap }, wrap_decimals(wrap))
    }

    fn take_code(&mut self, t: &Token) -> Result<Option<Part>, ReadStop>
        ensures part { StepsPart (at_stage stages.Code self.old) t.now self.new result }
        ensures nest { self.new.nest ≡ self.old.nest }
    {
        match code_due(t) {
            Err(f) => Err(ReadStop::Fault(f)),
            Ok(code) => {
                if self.nest >= 64 {
                    return Err(ReadStop::Fault(fault_at(ReadCode::NestLimit, 65, 64, t)));
                }
                Ok(self.open(code))
            }
        }
    }

    fn take_bezier(&mut self, t: &Token, header: BezierHeader) -> Result<Option<Part>, ReadStop>
        requires { self.old.nest < 64 }
        ensures part { StepsPart (at_stage (stages.Bezier header) self.old) t.now self.new result }
        ensures nest { self.new.nest ≡ self.old.nest }
    {
        match bezier_step(header, t) {
            Err(f) => Err(ReadStop::Fault(f)),
            Ok(step) => Ok(self.go(step)),
        }
    }

    fn take_flag(&mut self, t: &Token, header: SplineFlags) -> Result<Option<Part>, ReadStop>
        requires { self.old.nest < 64 }
        ensures part { StepsPart (at_stage (stages.Flags header) self.old) t.now self.new result }
        ensures nest { self.new.nest ≡ self.old.nest }
    {
        match flags_step(header, t) {
            Err(f) => Err(ReadStop::Fault(f)),
            Ok(step) => Ok(self.go(step)),
        }
    }

    fn take_count(&mut self, t: &Token, header: SplineCounts) -> Result<Option<Part>, ReadStop>
        requires { self.old.nest < 64 }
        ensures part { StepsPart (at_stage (stages.Counts header) self.old) t.now self.new result }
        ensures nest { self.new.nest ≡ self.old.nest }
    {
        match counts_step(header, t) {
            Err(f) => Err(ReadStop::Fault(f)),
            Ok(step) => Ok(self.go(step)),
        }
    }

    fn take_text(&mut self, t: &Token, form: Form) -> Result<Option<Part>, ReadStop>
        requires nested { self.old.nest < 64 }
        requires due { 0 < self.old.texts.due }
        ensures part { StepsPart (at_stage (stages.Texts form) self.old) t.now self.new result }
        ensures nest { self.new.nest ≡ self.old.nest }
    {
        self.texts.take(t)?;
        Ok(self.past_texts(form))
    }

    fn take_uknot(&mut self, t: &Token, net: Net, vknots: u64) -> Result<Option<Part>, ReadStop>
        requires nested { self.old.nest < 64 }
        requires due { 0 < self.old.uknots.due }
        ensures part { StepsPart (at_stage (stages.Uknots net vknots) self.old) t.now self.new result }
        ensures nest { self.new.nest ≡ self.old.nest }
    {
        self.uknots.take(t)?;
        Ok(self.past_uknots(net, vknots))
    }

    fn take_vknot(&mut self, t: &Token, net: Net) -> Result<Option<Part>, ReadStop>
        requires nested { self.old.nest < 64 }
        requires due { 0 < self.old.vknots.due }
        ensures part { StepsPart (at_stage (stages.Vknots net) self.old) t.now self.new result }
        ensures nest { self.new.nest ≡ self.old.nest }
    {
        self.vknots.take(t)?;
        Ok(self.past_vknots(net))
    }

    fn take_curve(&mut self, t: &Token, code: u8) -> Result<Option<Part>, ReadStop>
        requires nested { self.old.nest < 64 }
        requires waits { IsWaiting3 self.old.curve }
        requires stage { self.old.stage ≡ stages.Curve code }
        ensures part { StepsPart (at_stage (stages.Curve code) self.old) t.now self.new result }
        ensures nest { self.new.nest ≡ self.old.nest }
    {
        match self.curve.take(t)? {
            Progress::More => Ok(None),
            Progress::Whole => {
                let reader = mem::replace(&mut self.curve, Curve3Reader::new(self.alloc, 0));
                let curve = reader.done();
                let texts = taken(self.alloc, &mut self.texts);
                Ok(Some(Part::Leaf(Surface::Swept { code, texts, curve })))
            }
        }
    }

    /// Takes a token. Where the part is whole with it, it gives the part.
    #[tactic(auto, using(crate::proofs::Waiting::waits_open))]
    pub fn take(&mut self, t: &Token) -> Result<Option<Part>, ReadStop>
        requires { Waits self.old }
        ensures part { TakesPart (part_left self.old) t.now self.new result }
        ensures nest { self.new.nest ≡ self.old.nest }
    {
        self.step(t)
    }

    fn step(&mut self, t: &Token) -> Result<Option<Part>, ReadStop>
        requires { Waits self.old }
        ensures part { StepsPart (part_left self.old) t.now self.new result }
        ensures nest { self.new.nest ≡ self.old.nest }
    {
        match self.stage {
            Stage::Code => self.take_code(t),
            Stage::Bezier { header } => self.take_bezier(t, header),
            Stage::Flags { header } => self.take_flag(t, header),
            Stage::Counts { header } => self.take_count(t, header),
            Stage::Texts { form } => self.take_text(t, form),
            Stage::Curve { code } => self.take_curve(t, code),
            Stage::Uknots { net, vknots } => self.take_uknot(t, net, vknots),
            Stage::Vknots { net } => self.take_vknot(t, net),
        }
    }
}
