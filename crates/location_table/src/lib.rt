//! The section `Locations` of a BREP file: elementary transformations and products of their powers, read token by
//! token, held with the word of each place, and spelled again.
#![tactic(auto)]

mod entry;
pub mod laws;
mod limits;
mod reader;
mod section;
mod section_reader;
mod spell;

pub use entry::{Factor, Factors, LocationEntry};
pub use reader::LocationReader;
pub use section::Locations;
pub use section_reader::LocationsReader;
pub use spell::LocationSpell;
