//! Rewriting by keys: a step is carried out on the shared nodes of a pool, each of its keys once.
#![tactic(auto)]

mod asked;
mod collect;
mod derive;
mod found;
mod keying;
mod laws;
mod limits;
mod link;
mod making;
mod memo;
mod order;
mod step;
mod visits;

pub use key_results::{ApplyFault, LimitKind, Rewritten};
pub use step::apply;
