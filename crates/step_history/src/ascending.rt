//! Lists of numbers and of pairs in ascending order, each thing once.
ghost use Rattle.std.specs.Prelude.{◌↔◌, Contains, IfOk};
ghost use Rattle.std.specs.List.Sorted.{IsStrictlySortedBy};
ghost use Rattle.shape_pool.specs.declared.node.NodeId.{NodeId};
ghost use Rattle.step_history.specs.Numbered.{id_cmp, pair_cmp};

use lists::ListOf;
use shape_pool::{IdPairs, Ids, NodeId};
use std::alloc::{AllocError, Global};

/// The pairs in ascending order, each once.
pub fn ascending_pairs(mut pairs: Vec<(NodeId, NodeId)>) -> IdPairs
    ensures order { IsStrictlySortedBy pair_cmp result }
    ensures same { (y : NodeId × NodeId) → Contains result y ↔ Contains pairs.items y }
{
    pairs.sort_unstable();
    pairs.dedup();
    ListOf::from_vec(pairs)
}

/// A copy of pairs in ascending order, each once.
pub fn ascending_copy(alloc: Global, pairs: &[(NodeId, NodeId)]) -> Result<IdPairs, AllocError>
    ensures order { IfOk result (IsStrictlySortedBy pair_cmp) }
    ensures same { IfOk result (λ copy. (y : NodeId × NodeId) → Contains copy y ↔ Contains pairs.now y) }
{
    let mut copy = Vec::new(alloc);
    copy.extend_from_slice(pairs)?;
    Ok(ascending_pairs(copy))
}

/// The numbers in ascending order, each once.
pub fn ascending_ids(mut ids: Vec<NodeId>) -> Ids
    ensures order { IsStrictlySortedBy id_cmp result }
    ensures same { (y : NodeId) → Contains result y ↔ Contains ids.items y }
{
    ids.sort_unstable();
    ids.dedup();
    ListOf::from_vec(ids)
}
