//! The data of an edge. Each method is stated at its own stage.
ghost use Rattle.std.specs.Prelude.{◌<◌};
ghost use Rattle.tshape_data.specs.EdgesLeft.{IsWaiting as EdgesWait};
ghost use Rattle.tshape_data.specs.HeadLeft.{TakesAt};
ghost use Rattle.tshape_data.specs.declared.stage.Stage.TheVariants as stages;

use crate::edge_reps_reader::EdgeRepsReader;
use crate::reader::{HeadReader, room, tolerance_due};
use crate::stage::{EdgeFlags, Fields, Stage};
use brep_tokens::{Progress, ReadStop, Token};
use entry_readers::{DecimalsDue, flag_due};

impl HeadReader {
    /// The tolerance of an edge.
    pub(crate) fn take_edge_tolerance(&mut self, t: &Token) -> Result<Progress, ReadStop>
        ensures { TakesAt stages.Tolerance self.old t.now self.new result }
    {
        let texts = tolerance_due(self.alloc, t)?;
        self.texts = DecimalsDue { texts, due: 0 };
        self.stage = Stage::SameParameter;
        Ok(Progress::More)
    }

    pub(crate) fn take_same_parameter(&mut self, t: &Token) -> Result<Progress, ReadStop>
        ensures { TakesAt stages.SameParameter self.old t.now self.new result }
    {
        match flag_due(t) {
            Err(f) => Err(ReadStop::Fault(f)),
            Ok(same_parameter) => {
                self.stage = Stage::SameRange { same_parameter };
                Ok(Progress::More)
            }
        }
    }

    pub(crate) fn take_same_range(
        &mut self,
        t: &Token,
        same_parameter: bool,
    ) -> Result<Progress, ReadStop>
        ensures { TakesAt (stages.SameRange same_parameter) self.old t.now self.new result }
    {
        match flag_due(t) {
            Err(f) => Err(ReadStop::Fault(f)),
            Ok(same_range) => {
                self.stage = Stage::Degenerated {
                    same_parameter,
                    same_range,
                };
                Ok(Progress::More)
            }
        }
    }

    pub(crate) fn take_degenerated(
        &mut self,
        t: &Token,
        same_parameter: bool,
        same_range: bool,
    ) -> Result<Progress, ReadStop>
        ensures { TakesAt (stages.Degenerated same_parameter same_range) self.old t.now self.new result }
    {
        match flag_due(t) {
            Err(f) => Err(ReadStop::Fault(f)),
            Ok(degenerated) => {
                self.edges = EdgeRepsReader::new(
                    self.alloc,
                    self.bounds,
                    self.version,
                    room(&self.bounds),
                );
                self.stage = Stage::EdgeReps {
                    flags: EdgeFlags {
                        same_parameter,
                        same_range,
                        degenerated,
                    },
                };
                Ok(Progress::More)
            }
        }
    }

    /// A token of an edge's representations.
    pub(crate) fn take_edge_rep(
        &mut self,
        t: &Token,
        flags: EdgeFlags,
    ) -> Result<Progress, ReadStop>
        requires { EdgesWait self.old.edges }
        ensures { TakesAt (stages.EdgeReps flags) self.old t.now self.new result }
    {
        match self.edges.take(t)? {
            Progress::More => {
                self.stage = Stage::EdgeReps { flags };
                Ok(Progress::More)
            }
            Progress::Whole => {
                self.stage = Stage::Flags {
                    fields: Fields::Edge { flags },
                };
                Ok(Progress::More)
            }
        }
    }
}
