//! The reader of a polygon in space.
ghost use Rattle.std.specs.Prelude.{◌≡◌, ◌<◌, ◌^◌, MatchBool, OnOk};
ghost use Rattle.entry_readers.specs.Takes.{HasRead, IsOpen, ReadsAs, StepsOn};
ghost use Rattle.mesh_tables.specs.Counts.{polygon_size};
ghost use Rattle.mesh_tables.specs.Meshes.{polygon_at};
ghost use Rattle.mesh_tables.specs.PolygonLeft.{IsDue, IsFit, PolygonIsWhole, PolygonWaits, TakesPolygon, at_stage};
ghost use Rattle.mesh_tables.specs.PolygonLeft.{polygon_left};
ghost use Rattle.mesh_tables.specs.declared.polygon_reader.Stage.TheVariants as stages;

use crate::entries::Polygon3;
use brep_tokens::{Progress, ReadStop, Token};
use entry_readers::{DecimalsDue, flag_due, number_due};
use std::alloc::Global;

/// What is due next, with what was read before.
#[derive(Clone, Copy)]
pub enum Stage {
    Nodes,
    Params { nodes: u64 },
    Texts { nodes: u64, params: bool },
}

/// Takes the tokens of a polygon in space.
#[derive(Drop)]
pub struct Polygon3Reader {
    stage: Stage,
    texts: DecimalsDue,
    alloc: Global,
}

/// How many decimals it has.
fn size(nodes: u64, params: bool) -> u64
    requires { nodes < 10 ^ 18 }
    ensures { result ≡ polygon_size nodes params }
{
    let param_count = if params { nodes } else { 0 };
    1 + 3 * nodes + param_count
}

impl Polygon3Reader {
    /// No token was taken yet.
    pub fn new(alloc: Global) -> Polygon3Reader
        ensures left { ReadsAs (polygon_left result) polygon_at }
        ensures waits { PolygonWaits result }
        ensures open { IsOpen (polygon_left result) }
    {
        Polygon3Reader {
            stage: Stage::Nodes,
            texts: DecimalsDue::new(alloc, 0),
            alloc,
        }
    }

    fn take_nodes(&mut self, t: &Token) -> Result<(), ReadStop>
        ensures step { StepsOn (at_stage stages.Nodes self.old) t.now (polygon_left self.new) result }
        ensures fit { OnOk result (IsFit self.new.stage) }
    {
        match number_due(t) {
            Err(f) => Err(ReadStop::Fault(f)),
            Ok(nodes) => {
                self.stage = Stage::Params { nodes };
                Ok(())
            }
        }
    }

    fn take_params(&mut self, t: &Token, nodes: u64) -> Result<(), ReadStop>
        requires { nodes < 10 ^ 18 }
        ensures step { StepsOn (at_stage (stages.Params nodes) self.old) t.now (polygon_left self.new) result }
        ensures fit { OnOk result (IsFit self.new.stage) }
    {
        match flag_due(t) {
            Err(f) => Err(ReadStop::Fault(f)),
            Ok(params) => {
                self.texts = DecimalsDue::new(self.alloc, size(nodes, params));
                self.stage = Stage::Texts { nodes, params };
                Ok(())
            }
        }
    }

    /// Takes the token that is due.
    fn step(&mut self, t: &Token) -> Result<(), ReadStop>
        requires { PolygonWaits self.old }
        ensures step { StepsOn (polygon_left self.old) t.now (polygon_left self.new) result }
        ensures fit { OnOk result (IsFit self.new.stage) }
    {
        match self.stage {
            Stage::Nodes => self.take_nodes(t),
            Stage::Params { nodes } => self.take_params(t, nodes),
            Stage::Texts { .. } => self.texts.take(t),
        }
    }

    /// Was the last token taken?
    fn is_whole(&self) -> bool
        ensures { MatchBool result (PolygonIsWhole self.now) (IsDue self.now.stage self.now.texts.due) }
    {
        matches!(self.stage, Stage::Texts { .. }) && self.texts.due == 0
    }

    /// Takes a token. Nothing is kept for decimals that did not come yet, however many nodes are claimed.
    #[tactic(auto, using(crate::proofs::Waiting::polygon_opens))]
    pub fn take(&mut self, t: &Token) -> Result<Progress, ReadStop>
        requires { PolygonWaits self.old }
        ensures { TakesPolygon self.old t.now self.new result }
    {
        self.step(t)?;
        if self.is_whole() {
            Ok(Progress::Whole)
        } else {
            Ok(Progress::More)
        }
    }

    /// The polygon.
    pub fn done(self) -> Polygon3
        requires { PolygonIsWhole self }
        ensures { HasRead (polygon_left self) result }
    {
        let Polygon3Reader { stage, texts, .. } = self;
        match stage {
            Stage::Texts { nodes, params } => Polygon3 {
                nodes,
                params,
                texts: texts.texts,
            },
            _ => unreachable!(),
        }
    }
}
