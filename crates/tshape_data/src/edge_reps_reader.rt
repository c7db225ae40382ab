//! The reader of the representations of an edge.
ghost use Rattle.std.specs.Prelude.{◌≡◌, ◌<◌, Err, IfOk, List, Ok, OnOk, []};
ghost use Rattle.entry_readers.specs.Reading.{more};
ghost use Rattle.entry_readers.specs.Takes.{StepsOn};
ghost use Rattle.brep_tokens.specs.declared.fault.Progress.TheVariants as progress;
ghost use Rattle.brep_tokens.specs.declared.text.Token.{Token};
ghost use Rattle.tshape_data.specs.Columns.{edge_columns as columns_of};
ghost use Rattle.tshape_data.specs.ColumnsLeft.{HasNumbers, IsNumberDue};
ghost use Rattle.tshape_data.specs.EdgesLeft.{IsStepped, IsWaiting, SettlesFrom, StepsAt, TakesEdges, at_stage};
ghost use Rattle.tshape_data.specs.EdgesLeft.{edge_then, edges_left};
ghost use Rattle.tshape_data.specs.RepReading.{edge_reps_at};
ghost use Rattle.tshape_data.specs.declared.edge_reps_reader.EdgeStage.TheVariants as stages;

use crate::columns_due::{ColumnsDue, edge_columns};
use crate::form_due::edge_form_due;
use crate::forms::EdgeForm;
use crate::head_bounds::HeadBounds;
use crate::rep_parts::{edge_rep, edge_texts};
use crate::reps::EdgeReps;
use brep_tokens::{Progress, ReadStop, Token};
use entry_readers::DecimalsDue;
use std::alloc::{AllocError, Global};
use std::mem;

/// Which token of an edge's representations is due.
#[derive(Clone, Copy)]
pub enum EdgeStage {
    /// The number of a form, or the end.
    Form,
    /// A number of a representation.
    Numbers { form: EdgeForm },
    /// A decimal of a representation.
    Texts { form: EdgeForm },
    Whole,
}

/// Takes the tokens of the representations of an edge up to their end.
#[derive(Drop)]
pub struct EdgeRepsReader {
    pub bounds: HeadBounds,
    pub version: u8,
    /// How many representations more may come.
    pub room: u64,
    pub reps: EdgeReps,
    pub stage: EdgeStage,
    pub columns: ColumnsDue,
    pub texts: DecimalsDue,
    pub alloc: Global,
}

impl EdgeRepsReader {
    /// No token was taken yet, and so many representations may come.
    #[tactic(auto, using(crate::proofs::RepsOpen::no_edge))]
    pub fn new(alloc: Global, bounds: HeadBounds, version: u8, room: u64) -> EdgeRepsReader
        ensures left { (ts : List Token) → edges_left result ts ≡ edge_reps_at bounds version room ts }
        ensures waits { IsWaiting result }
        ensures open { edges_left result [] ≡ Err more }
    {
        EdgeRepsReader {
            bounds,
            version,
            room,
            reps: EdgeReps::new(alloc),
            stage: EdgeStage::Form,
            columns: ColumnsDue::new(),
            texts: DecimalsDue::new(alloc, 0),
            alloc,
        }
    }

    /// The number of a form, or the end.
    fn take_form(&mut self, t: &Token) -> Result<(), ReadStop>
        ensures step { StepsOn (at_stage stages.Form self.old) t.now (edges_left self.new) result }
        ensures stepped { OnOk result (IsStepped self.new.stage self.new) }
    {
        match edge_form_due(self.room, t) {
            Err(f) => Err(ReadStop::Fault(f)),
            Ok(None) => {
                self.stage = EdgeStage::Whole;
                Ok(())
            }
            Ok(Some(form)) => {
                self.begin(form);
                Ok(())
            }
        }
    }

    /// A representation of this form is due.
    fn begin(&mut self, form: EdgeForm)
        requires { 0 < self.old.room }
        ensures left { (ts : List Token) → edges_left self.new ts ≡ edge_then self.old form ts }
        ensures stepped { IsStepped self.new.stage self.new }
    {
        self.room -= 1;
        self.columns = ColumnsDue::new();
        self.stage = EdgeStage::Numbers { form };
    }

    /// A number of a representation of this form.
    fn take_number(&mut self, t: &Token, form: EdgeForm) -> Result<(), ReadStop>
        requires { IsNumberDue (columns_of form) self.old.columns }
        ensures step { StepsAt (stages.Numbers form) self.old t.now self.new result }
        ensures stage { self.new.stage ≡ self.old.stage }
        ensures stepped { OnOk result (IsStepped (stages.Numbers form) self.new) }
    {
        self.columns.take(edge_columns(form), &self.bounds, t)
    }

    /// A decimal of a representation of this form.
    fn take_text(&mut self, t: &Token, form: EdgeForm) -> Result<(), ReadStop>
        requires numbers { HasNumbers (columns_of form) self.old.columns }
        requires due { 0 < self.old.texts.due }
        ensures step { StepsAt (stages.Texts form) self.old t.now self.new result }
        ensures stage { self.new.stage ≡ self.old.stage }
        ensures stepped { OnOk result (IsStepped (stages.Texts form) self.new) }
    {
        self.texts.take(t)
    }

    /// Takes the token that is due.
    fn step(&mut self, t: &Token) -> Result<(), ReadStop>
        requires { IsWaiting self.old }
        ensures step { StepsOn (edges_left self.old) t.now (edges_left self.new) result }
        ensures stepped { OnOk result (IsStepped self.new.stage self.new) }
    {
        match self.stage {
            EdgeStage::Form => self.take_form(t),
            EdgeStage::Numbers { form } => self.take_number(t, form),
            EdgeStage::Texts { form } => self.take_text(t, form),
            EdgeStage::Whole => unreachable!(),
        }
    }

    /// Goes on behind the decimals of a representation where none is due.
    fn past_texts(&mut self, form: EdgeForm) -> Result<(), AllocError>
        requires { HasNumbers (columns_of form) self.old.columns }
        ensures { OnOk result (SettlesFrom (stages.Texts form) self.old self.new progress.More) }
    {
        if self.texts.due > 0 {
            self.stage = EdgeStage::Texts { form };
            return Ok(());
        }
        let taken = mem::replace(&mut self.texts, DecimalsDue::new(self.alloc, 0));
        self.reps.push(edge_rep(form, &self.columns, taken.texts))?;
        self.stage = EdgeStage::Form;
        Ok(())
    }

    /// Goes on behind the numbers of a representation.
    fn past_numbers(&mut self, form: EdgeForm) -> Result<(), AllocError>
        requires { HasNumbers (columns_of form) self.old.columns }
        ensures { OnOk result (SettlesFrom (stages.Numbers form) self.old self.new progress.More) }
    {
        self.texts = DecimalsDue::new(self.alloc, edge_texts(self.version, form));
        self.past_texts(form)
    }

    /// Goes on to where a token is due, or the end.
    fn settle(&mut self) -> Result<Progress, AllocError>
        requires { IsStepped self.old.stage self.old }
        ensures { IfOk result (SettlesFrom self.old.stage self.old self.new) }
    {
        match self.stage {
            EdgeStage::Form => Ok(Progress::More),
            EdgeStage::Numbers { form } => {
                if self.columns.len == edge_columns(form).len() {
                    self.past_numbers(form)?;
                    Ok(Progress::More)
                } else {
                    Ok(Progress::More)
                }
            }
            EdgeStage::Texts { form } => {
                self.past_texts(form)?;
                Ok(Progress::More)
            }
            EdgeStage::Whole => Ok(Progress::Whole),
        }
    }

    /// Takes a token.
    #[tactic(auto, using(crate::proofs::RepsOpen::edges_open))]
    pub fn take(&mut self, t: &Token) -> Result<Progress, ReadStop>
        requires { IsWaiting self.old }
        ensures { TakesEdges self.old t.now self.new result }
    {
        self.step(t)?;
        Ok(self.settle()?)
    }
}
