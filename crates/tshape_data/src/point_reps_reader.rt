//! The reader of the representations of a vertex.
ghost use Rattle.std.specs.Prelude.{◌≡◌, ◌<◌, Err, IfOk, List, OnOk, []};
ghost use Rattle.entry_readers.specs.Reading.{more};
ghost use Rattle.entry_readers.specs.Takes.{StepsOn};
ghost use Rattle.brep_tokens.specs.declared.fault.Progress.TheVariants as progress;
ghost use Rattle.brep_tokens.specs.declared.text.Token.{Token};
ghost use Rattle.tshape_data.specs.Columns.{point_columns as columns_of};
ghost use Rattle.tshape_data.specs.ColumnsLeft.{HasNumbers, IsNumberDue};
ghost use Rattle.tshape_data.specs.PointsLeft.{IsStepped, IsWaiting, SettlesFrom, StepsAt, TakesPoints, at_stage};
ghost use Rattle.tshape_data.specs.PointsLeft.{point_then, points_left};
ghost use Rattle.tshape_data.specs.RepReading.{points_at};
ghost use Rattle.tshape_data.specs.declared.point_reps_reader.PointStage.TheVariants as stages;

use crate::columns_due::{ColumnsDue, point_columns};
use crate::form_due::point_form_due;
use crate::forms::PointForm;
use crate::head_bounds::HeadBounds;
use crate::rep_parts::{point_rep, second_texts};
use crate::reps::PointReps;
use brep_tokens::{Decimals, Progress, ReadStop, Token, TokenText};
use entry_readers::{DecimalsDue, decimal_due};
use std::alloc::{AllocError, Global};
use std::mem;

/// Which token of a vertex's representations is due.
#[derive(Clone, Copy)]
pub enum PointStage {
    /// The first parameter of a representation, or the decimal before the end.
    Param,
    /// The number of a form, or the end.
    Form,
    /// A second parameter.
    Texts { form: PointForm },
    /// A number of a representation.
    Numbers { form: PointForm },
    Whole,
}

/// Takes the tokens of the representations of a vertex up to their end.
#[derive(Drop)]
pub struct PointRepsReader {
    pub bounds: HeadBounds,
    /// How many representations more may come.
    pub room: u64,
    pub reps: PointReps,
    pub stage: PointStage,
    /// The first parameter of a representation.
    pub param: TokenText,
    pub texts: DecimalsDue,
    pub columns: ColumnsDue,
    pub alloc: Global,
}

impl PointRepsReader {
    /// No token was taken yet, and so many representations may come.
    #[tactic(auto, using(crate::proofs::RepsOpen::no_point))]
    pub fn new(alloc: Global, bounds: HeadBounds, room: u64) -> PointRepsReader
        ensures left { (ts : List Token) → points_left result ts ≡ points_at bounds room ts }
        ensures waits { IsWaiting result }
        ensures open { points_left result [] ≡ Err more }
    {
        PointRepsReader {
            bounds,
            room,
            reps: PointReps::new(alloc),
            stage: PointStage::Param,
            param: TokenText::of(b""),
            texts: DecimalsDue::new(alloc, 0),
            columns: ColumnsDue::new(),
            alloc,
        }
    }

    /// A first parameter, or the decimal before the end.
    #[tactic(auto, using(crate::proofs::RepLoops::reps_then))]
    fn take_param(&mut self, t: &Token) -> Result<(), ReadStop>
        ensures step { StepsOn (at_stage stages.Param self.old) t.now (points_left self.new) result }
        ensures stepped { OnOk result (IsStepped self.new.stage self.new) }
    {
        match decimal_due(t) {
            Err(f) => Err(ReadStop::Fault(f)),
            Ok(()) => {
                self.param = t.text;
                self.stage = PointStage::Form;
                Ok(())
            }
        }
    }

    /// The number of a form, or the end.
    fn take_form(&mut self, t: &Token) -> Result<(), ReadStop>
        ensures step { StepsOn (at_stage stages.Form self.old) t.now (points_left self.new) result }
        ensures stepped { OnOk result (IsStepped self.new.stage self.new) }
    {
        match point_form_due(&self.param, self.room, t) {
            Err(f) => Err(ReadStop::Fault(f)),
            Ok(None) => {
                self.stage = PointStage::Whole;
                Ok(())
            }
            Ok(Some(form)) => match self.begin(form) {
                Err(_) => Err(ReadStop::NoMemory),
                Ok(()) => Ok(()),
            },
        }
    }

    /// The rest of a representation of this form is due.
    fn begin(&mut self, form: PointForm) -> Result<(), AllocError>
        requires { 0 < self.old.room }
        ensures left { OnOk result ((ts : List Token) → points_left self.new ts ≡ point_then self.old form ts) }
        ensures stepped { OnOk result (IsStepped self.new.stage self.new) }
    {
        let mut texts = Decimals::new(self.alloc);
        texts.push(self.param.bytes())?;
        self.texts = DecimalsDue {
            texts,
            due: second_texts(form),
        };
        self.room -= 1;
        self.stage = PointStage::Texts { form };
        Ok(())
    }

    /// A second parameter.
    fn take_text(&mut self, t: &Token, form: PointForm) -> Result<(), ReadStop>
        requires { 0 < self.old.texts.due }
        ensures step { StepsAt (stages.Texts form) self.old t.now self.new result }
        ensures stage { self.new.stage ≡ self.old.stage }
    {
        self.texts.take(t)
    }

    /// A number of a representation of this form.
    fn take_number(&mut self, t: &Token, form: PointForm) -> Result<(), ReadStop>
        requires { IsNumberDue (columns_of form) self.old.columns }
        ensures step { StepsAt (stages.Numbers form) self.old t.now self.new result }
        ensures stage { self.new.stage ≡ self.old.stage }
        ensures stepped { OnOk result (IsStepped (stages.Numbers form) self.new) }
    {
        self.columns.take(point_columns(form), &self.bounds, t)
    }

    /// Takes the token that is due.
    fn step(&mut self, t: &Token) -> Result<(), ReadStop>
        requires { IsWaiting self.old }
        ensures step { StepsOn (points_left self.old) t.now (points_left self.new) result }
        ensures stepped { OnOk result (IsStepped self.new.stage self.new) }
    {
        match self.stage {
            PointStage::Param => self.take_param(t),
            PointStage::Form => self.take_form(t),
            PointStage::Texts { form } => self.take_text(t, form),
            PointStage::Numbers { form } => self.take_number(t, form),
            PointStage::Whole => unreachable!(),
        }
    }

    /// Goes on behind the parameters of a representation where none is due.
    fn past_texts(&mut self, form: PointForm)
        ensures { SettlesFrom (stages.Texts form) self.old self.new progress.More }
    {
        if self.texts.due > 0 {
            self.stage = PointStage::Texts { form };
        } else {
            self.columns = ColumnsDue::new();
            self.stage = PointStage::Numbers { form };
        }
    }

    /// Goes on behind the numbers of a representation.
    fn past_numbers(&mut self, form: PointForm) -> Result<(), AllocError>
        requires { HasNumbers (columns_of form) self.old.columns }
        ensures { OnOk result (SettlesFrom (stages.Numbers form) self.old self.new progress.More) }
    {
        let taken = mem::replace(&mut self.texts, DecimalsDue::new(self.alloc, 0));
        self.reps.push(point_rep(form, &self.columns, taken.texts))?;
        self.stage = PointStage::Param;
        Ok(())
    }

    /// Goes on to where a token is due, or the end.
    fn settle(&mut self) -> Result<Progress, AllocError>
        requires { IsStepped self.old.stage self.old }
        ensures { IfOk result (SettlesFrom self.old.stage self.old self.new) }
    {
        match self.stage {
            PointStage::Param => Ok(Progress::More),
            PointStage::Form => Ok(Progress::More),
            PointStage::Texts { form } => {
                self.past_texts(form);
                Ok(Progress::More)
            }
            PointStage::Numbers { form } => {
                if self.columns.len == point_columns(form).len() {
                    self.past_numbers(form)?;
                    Ok(Progress::More)
                } else {
                    Ok(Progress::More)
                }
            }
            PointStage::Whole => Ok(Progress::Whole),
        }
    }

    /// Takes a token.
    #[tactic(auto, using(crate::proofs::RepsOpen::points_open))]
    pub fn take(&mut self, t: &Token) -> Result<Progress, ReadStop>
        requires { IsWaiting self.old }
        ensures { TakesPoints self.old t.now self.new result }
    {
        self.step(t)?;
        Ok(self.settle()?)
    }
}
