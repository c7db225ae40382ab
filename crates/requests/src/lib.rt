//! The requests of a step: their table, the graph that they make of the trees of a pool, and the check of a step.
#![tactic(auto)]

mod asking;
mod check;
mod ends;
mod fault;
mod fit;
mod live;
mod plan;
mod reached;
mod reaching;
mod request;
mod table;
mod walk;

pub use fault::{AddFault, CheckFault};
pub use fit::targets_fit_as_trees;
pub use plan::Plan;
pub use request::{Act, Request, Requests};
pub use table::{RequestTable, tables_stand_for_steps};
pub use walk::Walk;
