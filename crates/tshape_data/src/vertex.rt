//! The data of a vertex. Each method is stated at its own stage.
ghost use Rattle.std.specs.Prelude.{◌<◌};
ghost use Rattle.tshape_data.specs.HeadLeft.{TakesAt};
ghost use Rattle.tshape_data.specs.PointsLeft.{IsWaiting as PointsWait};
ghost use Rattle.tshape_data.specs.declared.stage.Stage.TheVariants as stages;

use crate::point_reps_reader::PointRepsReader;
use crate::reader::{HeadReader, room};
use crate::stage::{Fields, Stage};
use brep_tokens::{Progress, ReadStop, Token};

impl HeadReader {
    /// The tolerance or a coordinate of a vertex.
    pub(crate) fn take_vertex_text(&mut self, t: &Token) -> Result<Progress, ReadStop>
        requires { 0 < self.old.texts.due }
        ensures { TakesAt stages.VertexTexts self.old t.now self.new result }
    {
        self.texts.take(t)?;
        if self.texts.due == 0 {
            self.points = PointRepsReader::new(self.alloc, self.bounds, room(&self.bounds));
            self.stage = Stage::Points;
            Ok(Progress::More)
        } else {
            self.stage = Stage::VertexTexts;
            Ok(Progress::More)
        }
    }

    /// A token of a vertex's representations.
    pub(crate) fn take_point(&mut self, t: &Token) -> Result<Progress, ReadStop>
        requires { PointsWait self.old.points }
        ensures { TakesAt stages.Points self.old t.now self.new result }
    {
        match self.points.take(t)? {
            Progress::More => {
                self.stage = Stage::Points;
                Ok(Progress::More)
            }
            Progress::Whole => {
                self.stage = Stage::Flags {
                    fields: Fields::Vertex,
                };
                Ok(Progress::More)
            }
        }
    }
}
