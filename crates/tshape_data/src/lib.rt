//! Heads of records: kind, data and flags, with their readers, their spelling and their lines.
#![tactic(auto)]

mod chunks;
mod columns;
mod columns_due;
mod due;
mod edge;
mod edge_reps_reader;
mod face;
mod form_due;
mod forms;
mod head;
mod head_bounds;
mod head_words;
pub mod laws;
mod point_reps_reader;
mod ranges;
mod reader;
mod rep_parts;
mod rep_spell;
mod reps;
mod spell;
mod stage;
mod vertex;
mod word_lists;

pub use columns::{Column, Table};
pub use forms::{EdgeForm, PointForm};
pub use head::{EdgeData, FaceData, Flags, Head, Payload, VertexData};
pub use head_bounds::HeadBounds;
pub use reader::HeadReader;
pub use reps::{EdgeRep, EdgeReps, PointRep, PointReps};
pub use spell::HeadSpell;
