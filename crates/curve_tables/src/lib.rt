//! The tables of curves: in the parameter plane of a surface, and in space.
#![tactic(auto)]

mod chain;
mod counts;
mod curve2;
mod curve3;
mod curves;
mod fields;
pub mod laws;
mod part_spell;
mod parts;
mod reader2;
mod reader3;
mod spell2;
mod spell3;
mod stage;

pub use curve2::Curve2;
pub use curve3::Curve3;
pub use curves::{Curve2s, Curve3s};
pub use reader2::Curve2Reader;
pub use reader3::Curve3Reader;
pub use spell2::Spell2;
pub use spell3::Spell3;
