//! Lists of numbers of nodes.
use crate::node::NodeId;
use lists::ListOf;

/// Numbers of nodes, in their order.
pub type Ids = ListOf<NodeId>;

/// Pairs of numbers of nodes, in their order.
pub type IdPairs = ListOf<(NodeId, NodeId)>;
