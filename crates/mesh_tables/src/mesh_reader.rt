//! The reader of a mesh.
ghost use Rattle.std.specs.Prelude.{◌≡◌, ◌<◌, ◌^◌, OnOk};
ghost use Rattle.entry_readers.specs.Takes.{HasRead, IsOpen, ReadsAs, StepsOn};
ghost use Rattle.mesh_tables.specs.Counts.{mesh_size};
ghost use Rattle.mesh_tables.specs.Meshes.{mesh_at};
ghost use Rattle.mesh_tables.specs.MeshLeft.{IsFit, MeshIsWhole, MeshWaits, TakesMesh, TellsWhole, at_stage, mesh_left};
ghost use Rattle.mesh_tables.specs.declared.mesh_reader.Stage.TheVariants as stages;

use crate::entries::Mesh;
use brep_tokens::{Progress, ReadStop, Token};
use entry_readers::{DecimalsDue, NumbersDue, flag_due, number_due};
use std::alloc::Global;

/// What is due next, with what was read before.
#[derive(Clone, Copy)]
pub enum Stage {
    Nodes,
    Triangles {
        nodes: u64,
    },
    Uv {
        nodes: u64,
        triangles: u64,
    },
    Texts {
        nodes: u64,
        triangles: u64,
        uv: bool,
    },
    Corners {
        nodes: u64,
        triangles: u64,
        uv: bool,
    },
}

/// Takes the tokens of a mesh.
#[derive(Drop)]
pub struct MeshReader {
    stage: Stage,
    texts: DecimalsDue,
    corners: NumbersDue,
    alloc: Global,
}

/// How many decimals it has.
fn size(nodes: u64, uv: bool) -> u64
    requires { nodes < 10 ^ 18 }
    ensures { result ≡ mesh_size nodes uv }
{
    let param_count = if uv { 2 * nodes } else { 0 };
    1 + 3 * nodes + param_count
}

impl MeshReader {
    /// No token was taken yet.
    pub fn new(alloc: Global) -> MeshReader
        ensures left { ReadsAs (mesh_left result) mesh_at }
        ensures waits { MeshWaits result }
        ensures open { IsOpen (mesh_left result) }
    {
        MeshReader {
            stage: Stage::Nodes,
            texts: DecimalsDue::new(alloc, 0),
            corners: NumbersDue::new(alloc, 1, 0, 0),
            alloc,
        }
    }

    fn take_nodes(&mut self, t: &Token) -> Result<(), ReadStop>
        ensures step { StepsOn (at_stage stages.Nodes self.old) t.now (mesh_left self.new) result }
        ensures fit { OnOk result (IsFit self.new.stage) }
    {
        match number_due(t) {
            Err(f) => Err(ReadStop::Fault(f)),
            Ok(nodes) => {
                self.stage = Stage::Triangles { nodes };
                Ok(())
            }
        }
    }

    fn take_triangles(&mut self, t: &Token, nodes: u64) -> Result<(), ReadStop>
        requires { nodes < 10 ^ 18 }
        ensures step { StepsOn (at_stage (stages.Triangles nodes) self.old) t.now (mesh_left self.new) result }
        ensures fit { OnOk result (IsFit self.new.stage) }
    {
        match number_due(t) {
            Err(f) => Err(ReadStop::Fault(f)),
            Ok(triangles) => {
                self.stage = Stage::Uv { nodes, triangles };
                Ok(())
            }
        }
    }

    fn take_uv(&mut self, t: &Token, nodes: u64, triangles: u64) -> Result<(), ReadStop>
        requires nodes { nodes < 10 ^ 18 }
        requires triangles { triangles < 10 ^ 18 }
        ensures step { StepsOn (at_stage (stages.Uv nodes triangles) self.old) t.now (mesh_left self.new) result }
        ensures fit { OnOk result (IsFit self.new.stage) }
    {
        match flag_due(t) {
            Err(f) => Err(ReadStop::Fault(f)),
            Ok(uv) => {
                self.texts = DecimalsDue::new(self.alloc, size(nodes, uv));
                self.stage = Stage::Texts {
                    nodes,
                    triangles,
                    uv,
                };
                Ok(())
            }
        }
    }

    /// Takes the token that is due.
    fn step(&mut self, t: &Token) -> Result<(), ReadStop>
        requires { MeshWaits self.old }
        ensures step { StepsOn (mesh_left self.old) t.now (mesh_left self.new) result }
        ensures fit { OnOk result (IsFit self.new.stage) }
    {
        match self.stage {
            Stage::Nodes => self.take_nodes(t),
            Stage::Triangles { nodes } => self.take_triangles(t, nodes),
            Stage::Uv { nodes, triangles } => self.take_uv(t, nodes, triangles),
            Stage::Texts { .. } => self.texts.take(t),
            Stage::Corners { .. } => self.corners.take(t),
        }
    }

    /// The corners are due after the decimals. Is no corner due?
    fn begin_corners(&mut self, nodes: u64, triangles: u64, uv: bool) -> bool
        requires triangles { triangles < 10 ^ 18 }
        requires texts { self.old.texts.due ≡ 0 }
        ensures left { ReadsAs (mesh_left self.new) (at_stage (stages.Texts nodes triangles uv) self.old) }
        ensures fit { IsFit self.new.stage }
        ensures due { TellsWhole result self.new }
    {
        self.corners = NumbersDue::new(self.alloc, 1, nodes, 3 * triangles);
        self.stage = Stage::Corners {
            nodes,
            triangles,
            uv,
        };
        triangles == 0
    }

    /// Goes on to the corners where no decimal is due. Is no token due any more?
    fn settle(&mut self) -> bool
        requires { IsFit self.old.stage }
        ensures left { ReadsAs (mesh_left self.new) (mesh_left self.old) }
        ensures fit { IsFit self.new.stage }
        ensures due { TellsWhole result self.new }
    {
        match self.stage {
            Stage::Texts {
                nodes,
                triangles,
                uv,
            } => {
                if self.texts.due == 0 {
                    self.begin_corners(nodes, triangles, uv)
                } else {
                    false
                }
            }
            Stage::Corners { .. } => self.corners.due == 0,
            _ => false,
        }
    }

    /// Takes a token. Nothing is kept for decimals and corners that did not come yet, however many nodes and triangles
    /// are claimed.
    #[tactic(auto, using(crate::proofs::Waiting::mesh_opens))]
    pub fn take(&mut self, t: &Token) -> Result<Progress, ReadStop>
        requires { MeshWaits self.old }
        ensures { TakesMesh self.old t.now self.new result }
    {
        self.step(t)?;
        if self.settle() {
            Ok(Progress::Whole)
        } else {
            Ok(Progress::More)
        }
    }

    /// The mesh.
    pub fn done(self) -> Mesh
        requires { MeshIsWhole self }
        ensures { HasRead (mesh_left self) result }
    {
        let MeshReader {
            stage,
            texts,
            corners,
            ..
        } = self;
        match stage {
            Stage::Corners {
                nodes,
                triangles,
                uv,
            } => Mesh {
                nodes,
                triangles,
                uv,
                texts: texts.texts,
                corners: corners.numbers,
            },
            _ => unreachable!(),
        }
    }
}
