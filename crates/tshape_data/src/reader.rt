//! The reader of a record's head: its kind and its flags. The files of a vertex, an edge and a face read their data.
ghost use Rattle.std.specs.Prelude.{◌≡◌, ◌≤◌, ◌⊎◌, Err, List, Ok, []};
ghost use Rattle.entry_readers.specs.Reading.{decimals_at, more};
ghost use Rattle.entry_readers.specs.Takes.{Takes};
ghost use Rattle.brep_tokens.specs.declared.text.Token.{Token};
ghost use Rattle.tshape_data.specs.HeadLeft.{AnswersOrStops, DataAreLeft, IsDone, IsWaiting, TakesAt, head_left};
ghost use Rattle.tshape_data.specs.HeadLeft.{kind_of, payload_from};
ghost use Rattle.tshape_data.specs.HeadReading.{head_at, room_of};
ghost use Rattle.tshape_data.specs.RepReading.{most_reps};
ghost use Rattle.tshape_data.specs.declared.stage.Stage.TheVariants as stages;

use crate::due::{flags_due, kind_due};
use crate::edge_reps_reader::EdgeRepsReader;
use crate::form_due::MOST_REPS;
use crate::head::{EdgeData, FaceData, Head, Payload, VertexData};
use crate::head_bounds::HeadBounds;
use crate::point_reps_reader::PointRepsReader;
use crate::reps::{EdgeReps, PointReps};
use crate::stage::{Fields, Stage};
use brep_tokens::{Decimals, Progress, ReadStop, Token};
use entry_readers::{DecimalsDue, decimal_due};
use orientation::Kind;
use std::alloc::Global;

/// Takes the tokens of a record up to its flags.
#[derive(Drop)]
pub struct HeadReader {
    pub(crate) bounds: HeadBounds,
    pub(crate) version: u8,
    pub(crate) stage: Stage,
    /// The tolerance, and the coordinates of a vertex.
    pub(crate) texts: DecimalsDue,
    pub(crate) points: PointRepsReader,
    pub(crate) edges: EdgeRepsReader,
    pub(crate) alloc: Global,
}

/// How many representations may stand in a record and those after it.
pub(crate) fn room(bounds: &HeadBounds) -> u64
    ensures { result ≡ room_of bounds.now }
{
    MOST_REPS.saturating_sub(bounds.reps)
}

/// The tolerance of an edge or a face is due.
pub(crate) fn tolerance_due(alloc: Global, t: &Token) -> Result<Decimals, ReadStop>
    ensures { AnswersOrStops (decimals_at 1) t.now result }
{
    match decimal_due(t) {
        Err(f) => Err(ReadStop::Fault(f)),
        Ok(()) => {
            let mut texts = Decimals::new(alloc);
            match texts.push(t.bytes()) {
                Err(_) => Err(ReadStop::NoMemory),
                Ok(()) => Ok(texts),
            }
        }
    }
}

/// The kind of a record with these data.
fn kind(fields: Fields) -> Kind
    ensures { result ≡ kind_of fields }
{
    match fields {
        Fields::Vertex => Kind::Ve,
        Fields::Edge { .. } => Kind::Ed,
        Fields::Face { .. } => Kind::Fa,
        Fields::Nothing { kind } => kind,
    }
}

/// The data of a record.
fn payload(fields: Fields, texts: Decimals, points: PointReps, reps: EdgeReps) -> Payload
    ensures { result ≡ payload_from fields texts points reps }
{
    match fields {
        Fields::Vertex => Payload::Vertex(VertexData { texts, points }),
        Fields::Edge { flags } => Payload::Edge(EdgeData {
            tolerance: texts,
            same_parameter: flags.same_parameter,
            same_range: flags.same_range,
            degenerated: flags.degenerated,
            reps,
        }),
        Fields::Face { support, mesh } => Payload::Face(FaceData {
            natural: support.natural,
            tolerance: texts,
            surface: support.surface,
            location: support.location,
            mesh,
        }),
        Fields::Nothing { .. } => Payload::Nothing,
    }
}

impl HeadReader {
    /// No token was taken yet.
    pub fn new(alloc: Global, bounds: HeadBounds, version: u8) -> HeadReader
        requires version { (version ≡ 1) ⊎ (version ≡ 2) }
        requires few { bounds.reps ≤ most_reps }
        ensures left { (ts : List Token) → head_left result ts ≡ head_at bounds version ts }
        ensures waits { IsWaiting result }
        ensures open { head_left result [] ≡ Err more }
    {
        HeadReader {
            bounds,
            version,
            stage: Stage::Kind,
            texts: DecimalsDue::new(alloc, 0),
            points: PointRepsReader::new(alloc, bounds, 0),
            edges: EdgeRepsReader::new(alloc, bounds, version, 0),
            alloc,
        }
    }

    /// The data of a record of this kind are due.
    fn begin(&mut self, kind: Kind)
        ensures left { DataAreLeft kind self.old self.new }
        ensures waits { IsWaiting self.new }
        ensures open { head_left self.new [] ≡ Err more }
    {
        match kind {
            Kind::Ve => {
                self.texts = DecimalsDue::new(self.alloc, 4);
                self.stage = Stage::VertexTexts;
            }
            Kind::Ed => self.stage = Stage::Tolerance,
            Kind::Fa => self.stage = Stage::Natural,
            Kind::Wi | Kind::Sh | Kind::So | Kind::CS | Kind::Co => {
                self.stage = Stage::Flags {
                    fields: Fields::Nothing { kind },
                };
            }
        }
    }

    /// The name of the kind.
    fn take_kind(&mut self, t: &Token) -> Result<Progress, ReadStop>
        ensures { TakesAt stages.Kind self.old t.now self.new result }
    {
        match kind_due(t) {
            Err(f) => Err(ReadStop::Fault(f)),
            Ok(kind) => {
                self.begin(kind);
                Ok(Progress::More)
            }
        }
    }

    /// The seven flags.
    pub(crate) fn take_flags(&mut self, t: &Token, fields: Fields) -> Result<Progress, ReadStop>
        ensures { TakesAt (stages.Flags fields) self.old t.now self.new result }
    {
        match flags_due(t) {
            Err(f) => Err(ReadStop::Fault(f)),
            Ok(flags) => {
                self.stage = Stage::Whole { fields, flags };
                Ok(Progress::Whole)
            }
        }
    }

    /// Takes a token: it is the first one that isn't accepted, or more are due, or the head is whole with it.
    pub fn take(&mut self, t: &Token) -> Result<Progress, ReadStop>
        requires { IsWaiting self.old }
        ensures { Takes (head_left self.old) t.now (head_left self.new) (IsWaiting self.new) (IsDone self.new) result }
    {
        match self.stage {
            Stage::Kind => self.take_kind(t),
            Stage::VertexTexts => self.take_vertex_text(t),
            Stage::Points => self.take_point(t),
            Stage::Tolerance => self.take_edge_tolerance(t),
            Stage::SameParameter => self.take_same_parameter(t),
            Stage::SameRange { same_parameter } => self.take_same_range(t, same_parameter),
            Stage::Degenerated {
                same_parameter,
                same_range,
            } => self.take_degenerated(t, same_parameter, same_range),
            Stage::EdgeReps { flags } => self.take_edge_rep(t, flags),
            Stage::Natural => self.take_natural(t),
            Stage::FaceTolerance { natural } => self.take_face_tolerance(t, natural),
            Stage::Surface { natural } => self.take_surface(t, natural),
            Stage::Location { natural, surface } => self.take_location(t, natural, surface),
            Stage::Mesh { support } => self.take_mesh(t, support),
            Stage::MeshNumber { support } => self.take_mesh_number(t, support),
            Stage::Flags { fields } => self.take_flags(t, fields),
            Stage::Whole { .. } => unreachable!(),
        }
    }

    /// The head.
    pub fn done(self) -> Head
        requires { IsDone self }
        ensures { (rest : List Token) → head_left self rest ≡ Ok (result, rest) }
    {
        let HeadReader {
            stage,
            texts,
            points,
            edges,
            ..
        } = self;
        match stage {
            Stage::Whole { fields, flags } => Head {
                kind: kind(fields),
                payload: payload(fields, texts.texts, points.reps, edges.reps),
                flags,
            },
            _ => unreachable!(),
        }
    }
}
