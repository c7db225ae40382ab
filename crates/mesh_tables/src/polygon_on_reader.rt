//! The reader of a polygon on a mesh.
ghost use Rattle.std.specs.Prelude.{MatchBool};
ghost use Rattle.entry_readers.specs.Takes.{HasRead, IsOpen, ReadsAs, StepsOn};
ghost use Rattle.mesh_tables.specs.Meshes.{polygon_on_at};
ghost use Rattle.mesh_tables.specs.PolygonOnLeft.{PolygonOnIsWhole, PolygonOnWaits, TakesPolygonOn, at_stage};
ghost use Rattle.mesh_tables.specs.PolygonOnLeft.{polygon_on_left};
ghost use Rattle.mesh_tables.specs.declared.polygon_on_reader.Stage.TheVariants as stages;

use crate::entries::PolygonOnMesh;
use brep_tokens::{Decimals, Progress, ReadStop, Token};
use entry_readers::{DecimalsDue, NumbersDue, decimal_due, flag_due, number_due, word_due};
use std::alloc::Global;

/// The greatest number that has a token, of 18 digits.
const GREATEST: u64 = 999_999_999_999_999_999;

/// What is due next, with what was read before.
#[derive(Clone, Copy)]
pub enum Stage {
    Count,
    Nodes { count: u64 },
    WordP { count: u64 },
    Deflection { count: u64 },
    Params { count: u64 },
    Texts { params: bool },
}

/// Takes the tokens of a polygon on a mesh.
#[derive(Drop)]
pub struct PolygonOnMeshReader {
    stage: Stage,
    nodes: NumbersDue,
    texts: DecimalsDue,
    alloc: Global,
}

impl PolygonOnMeshReader {
    /// No token was taken yet.
    pub fn new(alloc: Global) -> PolygonOnMeshReader
        ensures left { ReadsAs (polygon_on_left result) polygon_on_at }
        ensures waits { PolygonOnWaits result }
        ensures open { IsOpen (polygon_on_left result) }
    {
        PolygonOnMeshReader {
            stage: Stage::Count,
            nodes: NumbersDue::new(alloc, 0, GREATEST, 0),
            texts: DecimalsDue::new(alloc, 0),
            alloc,
        }
    }

    fn take_count(&mut self, t: &Token) -> Result<(), ReadStop>
        ensures { StepsOn (at_stage stages.Count self.old) t.now (polygon_on_left self.new) result }
    {
        match number_due(t) {
            Err(f) => Err(ReadStop::Fault(f)),
            Ok(count) => {
                self.nodes = NumbersDue::new(self.alloc, 0, GREATEST, count);
                self.stage = Stage::Nodes { count };
                Ok(())
            }
        }
    }

    fn take_word_p(&mut self, t: &Token, count: u64) -> Result<(), ReadStop>
        ensures { StepsOn (at_stage (stages.WordP count) self.old) t.now (polygon_on_left self.new) result }
    {
        match word_due(b"p", t) {
            Err(f) => Err(ReadStop::Fault(f)),
            Ok(()) => {
                self.stage = Stage::Deflection { count };
                Ok(())
            }
        }
    }

    fn take_deflection(&mut self, t: &Token, count: u64) -> Result<(), ReadStop>
        ensures { StepsOn (at_stage (stages.Deflection count) self.old) t.now (polygon_on_left self.new) result }
    {
        if let Err(f) = decimal_due(t) {
            return Err(ReadStop::Fault(f));
        }
        let mut texts = Decimals::new(self.alloc);
        texts.push(t.bytes())?;
        self.texts = DecimalsDue { texts, due: 0 };
        self.stage = Stage::Params { count };
        Ok(())
    }

    fn take_params(&mut self, t: &Token, count: u64) -> Result<(), ReadStop>
        ensures { StepsOn (at_stage (stages.Params count) self.old) t.now (polygon_on_left self.new) result }
    {
        match flag_due(t) {
            Err(f) => Err(ReadStop::Fault(f)),
            Ok(params) => {
                self.texts.due = if params { count } else { 0 };
                self.stage = Stage::Texts { params };
                Ok(())
            }
        }
    }

    /// Takes the token that is due.
    fn step(&mut self, t: &Token) -> Result<(), ReadStop>
        requires { PolygonOnWaits self.old }
        ensures { StepsOn (polygon_on_left self.old) t.now (polygon_on_left self.new) result }
    {
        match self.stage {
            Stage::Count => self.take_count(t),
            Stage::Nodes { .. } => self.nodes.take(t),
            Stage::WordP { count } => self.take_word_p(t, count),
            Stage::Deflection { count } => self.take_deflection(t, count),
            Stage::Params { count } => self.take_params(t, count),
            Stage::Texts { .. } => self.texts.take(t),
        }
    }

    /// Goes on to the word `p` where the number of no node is due. Is no token due any more?
    fn settle(&mut self) -> bool
        ensures left { ReadsAs (polygon_on_left self.new) (polygon_on_left self.old) }
        ensures due { MatchBool result (PolygonOnIsWhole self.new) (PolygonOnWaits self.new) }
    {
        match self.stage {
            Stage::Nodes { count } => {
                if self.nodes.due == 0 {
                    self.stage = Stage::WordP { count };
                }
                false
            }
            Stage::Texts { .. } => self.texts.due == 0,
            _ => false,
        }
    }

    /// Takes a token. Nothing is kept for numbers and decimals that did not come yet, however many nodes are claimed.
    #[tactic(auto, using(crate::proofs::Waiting::polygon_on_opens))]
    pub fn take(&mut self, t: &Token) -> Result<Progress, ReadStop>
        requires { PolygonOnWaits self.old }
        ensures { TakesPolygonOn self.old t.now self.new result }
    {
        self.step(t)?;
        if self.settle() {
            Ok(Progress::Whole)
        } else {
            Ok(Progress::More)
        }
    }

    /// The polygon.
    pub fn done(self) -> PolygonOnMesh
        requires { PolygonOnIsWhole self }
        ensures { HasRead (polygon_on_left self) result }
    {
        let PolygonOnMeshReader {
            stage,
            nodes,
            texts,
            ..
        } = self;
        match stage {
            Stage::Texts { params } => PolygonOnMesh {
                nodes: nodes.numbers,
                params,
                texts: texts.texts,
            },
            _ => unreachable!(),
        }
    }
}
