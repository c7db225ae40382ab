//! The order in which the nodes at and below a root are written: each once, behind the nodes of its uses. Numbers are
//! counted from the last.
#![tactic(auto)]

mod completing;
pub mod laws;
mod order;

pub use completing::order_of;
pub use order::Order;
