//! Merging and sewing: the requests that make nodes the first one of a list.
#![tactic(auto)]

mod asking;
mod ends;
mod fault;
mod kinds;
mod member;
mod merged;
mod sewn;

/// What the numbers stand for, as functions whose contracts state it.
pub mod laws;

pub use fault::SewFault;
pub use member::Member;
pub use merged::merge;
pub use sewn::sew;
