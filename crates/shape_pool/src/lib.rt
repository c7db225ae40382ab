//! The pool of shared nodes: each tree of a run is held once, and its number tells it from every other.
#![tactic(auto)]

mod fault;
mod handing;
mod held;
mod held_nodes;
mod ids;
mod making;
mod node;
mod pool;
mod stock;

pub use fault::PoolFault;
pub use ids::{IdPairs, Ids};
pub use node::{Node, NodeId, NodeUse, UseOf};
pub use pool::Pool;
