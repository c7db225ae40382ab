//! The data of a face. Each method is stated at its own stage.
ghost use Rattle.tshape_data.specs.HeadLeft.{TakesAt};
ghost use Rattle.tshape_data.specs.declared.stage.Stage.TheVariants as stages;

use crate::due::index_due;
use crate::reader::{HeadReader, tolerance_due};
use crate::stage::{Fields, Stage, Support};
use brep_tokens::{Progress, ReadStop, Token};
use entry_readers::{DecimalsDue, flag_due};

impl HeadReader {
    /// Whether its surface bounds the face.
    pub(crate) fn take_natural(&mut self, t: &Token) -> Result<Progress, ReadStop>
        ensures { TakesAt stages.Natural self.old t.now self.new result }
    {
        match flag_due(t) {
            Err(f) => Err(ReadStop::Fault(f)),
            Ok(natural) => {
                self.stage = Stage::FaceTolerance { natural };
                Ok(Progress::More)
            }
        }
    }

    /// The tolerance of a face.
    pub(crate) fn take_face_tolerance(
        &mut self,
        t: &Token,
        natural: bool,
    ) -> Result<Progress, ReadStop>
        ensures { TakesAt (stages.FaceTolerance natural) self.old t.now self.new result }
    {
        let texts = tolerance_due(self.alloc, t)?;
        self.texts = DecimalsDue { texts, due: 0 };
        self.stage = Stage::Surface { natural };
        Ok(Progress::More)
    }

    pub(crate) fn take_surface(&mut self, t: &Token, natural: bool) -> Result<Progress, ReadStop>
        ensures { TakesAt (stages.Surface natural) self.old t.now self.new result }
    {
        match index_due(0, self.bounds.surfaces, t) {
            Err(f) => Err(ReadStop::Fault(f)),
            Ok(surface) => {
                self.stage = Stage::Location { natural, surface };
                Ok(Progress::More)
            }
        }
    }

    pub(crate) fn take_location(
        &mut self,
        t: &Token,
        natural: bool,
        surface: u32,
    ) -> Result<Progress, ReadStop>
        ensures { TakesAt (stages.Location natural surface) self.old t.now self.new result }
    {
        match index_due(0, self.bounds.locations, t) {
            Err(f) => Err(ReadStop::Fault(f)),
            Ok(location) => {
                self.stage = Stage::Mesh {
                    support: Support {
                        natural,
                        surface,
                        location,
                    },
                };
                Ok(Progress::More)
            }
        }
    }

    /// `2` before a triangulation, or the flags.
    pub(crate) fn take_mesh(&mut self, t: &Token, support: Support) -> Result<Progress, ReadStop>
        ensures { TakesAt (stages.Mesh support) self.old t.now self.new result }
    {
        if t.bytes() == b"2".as_slice() {
            self.stage = Stage::MeshNumber { support };
            Ok(Progress::More)
        } else {
            let fields = Fields::Face {
                support,
                mesh: None,
            };
            self.take_flags(t, fields)
        }
    }

    /// The triangulation of a face.
    pub(crate) fn take_mesh_number(
        &mut self,
        t: &Token,
        support: Support,
    ) -> Result<Progress, ReadStop>
        ensures { TakesAt (stages.MeshNumber support) self.old t.now self.new result }
    {
        match index_due(1, self.bounds.meshes, t) {
            Err(f) => Err(ReadStop::Fault(f)),
            Ok(mesh) => {
                self.stage = Stage::Flags {
                    fields: Fields::Face {
                        support,
                        mesh: Some(mesh),
                    },
                };
                Ok(Progress::More)
            }
        }
    }
}
