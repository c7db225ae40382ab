//! The history over no step.
ghost use Rattle.std.specs.Prelude.{◌<◌, All, IfOk, OnOk, length};
ghost use Rattle.std.specs.List.Sorted.{IsStrictlySortedBy};
ghost use Rattle.lists.specs.Gathering.{Adds, Gathers};
ghost use Rattle.step_history.specs.Numbered.{pair_cmp, Ascends, IsHeld};
ghost use Rattle.history_merge.specs.Merged.{IsStartAt, Stays, TellsStart};

use lists::ListOf;
use shape_pool::{IdPairs, NodeId, Pool};
use std::alloc::{AllocError, Global};
use step_history::{Met, StepHistory, ascending_pairs, is_spoken_of, nodes_of};

/// Adds the pair of a shape of which histories speak and itself.
fn stay(pool: &Pool, id: u32, pairs: &mut Vec<(NodeId, NodeId)>) -> Result<(), AllocError>
    requires { id < length pool.now }
    ensures { OnOk result (Adds (Stays pool.now id) pairs.old.items pairs.new.items) }
{
    if !is_spoken_of(pool.kind(NodeId(id))) {
        return Ok(());
    }
    pairs.push((NodeId(id), NodeId(id)))?;
    Ok(())
}

/// The pairs of a shape of the input and itself.
fn stays_of(alloc: Global, pool: &Pool, input: &Met) -> Result<IdPairs, AllocError>
    requires { All (λ i. i < length pool.now) input.now }
    ensures stays { IfOk result (Gathers (Stays pool.now) input.now) }
    ensures order { IfOk result (IsStrictlySortedBy pair_cmp) }
{
    let mut pairs = Vec::new(alloc);
    for id in input.as_slice() {
        stay(pool, *id, &mut pairs)?;
    }
    Ok(ascending_pairs(pairs))
}

/// The history over no step: each shape of the root of which histories speak is its own image, and nothing is generated
/// or removed.
pub fn start(pool: &Pool, root: NodeId) -> Result<StepHistory, AllocError>
    requires { root.0 < length pool.now }
    ensures told { IfOk result (TellsStart pool.now root.0) }
    ensures listed { IfOk result (IsStartAt pool.now root.0) }
    ensures order { IfOk result Ascends }
    ensures held { IfOk result (IsHeld pool.now) }
{
    pool.laws();
    let alloc = *pool.node(root).uses.allocator();
    let input = nodes_of(alloc, pool, root)?;
    let images = stays_of(alloc, pool, &input)?;
    let generated = ListOf::new(alloc);
    let removed = ListOf::new(alloc);
    Ok(StepHistory {
        images,
        generated,
        removed,
    })
}
