//! The table of surfaces: its entries, the reader of an entry, and its spelling.
#![tactic(auto)]

mod counts;
mod header;
pub mod laws;
mod part;
mod part_spell;
mod parts;
mod reader;
mod spell;
mod surface;
mod surfaces;

pub use reader::SurfaceReader;
pub use spell::SurfaceSpell;
pub use surface::{Surface, SurfaceFlags};
pub use surfaces::Surfaces;
