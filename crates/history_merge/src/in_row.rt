//! Two histories in a row.
ghost use Rattle.std.specs.Prelude.{◌<◌, IfOk, length};
ghost use Rattle.std.specs.List.Sorted.{IsStrictlySortedBy};
ghost use Rattle.step_history.specs.Numbered.{pair_cmp, Ascends, IsHeld};
ghost use Rattle.history_merge.specs.Chain.{IsChainAt, TellsChain};
ghost use Rattle.history_merge.specs.Joined.{IsWhollyGenerated, Joins};

use crate::joined::join;
use shape_pool::{IdPairs, NodeId, Pool};
use std::alloc::{AllocError, Global};
use step_history::{StepHistory, ascending_pairs, nodes_of, removed_of};

/// The images of the first history, and then those of the second.
fn images_after(
    alloc: Global,
    images: &[(NodeId, NodeId)],
    next: &[(NodeId, NodeId)],
) -> Result<IdPairs, AllocError>
    ensures order { IfOk result (IsStrictlySortedBy pair_cmp) }
    ensures pairs { IfOk result (Joins images.now next.now) }
{
    let mut out = Vec::new(alloc);
    join(alloc, images, next, &mut out)?;
    Ok(ascending_pairs(out))
}

/// What both histories together generate.
fn generated_after(
    alloc: Global,
    images: &[(NodeId, NodeId)],
    generated: &[(NodeId, NodeId)],
    next_images: &[(NodeId, NodeId)],
    next_generated: &[(NodeId, NodeId)],
) -> Result<IdPairs, AllocError>
    ensures order { IfOk result (IsStrictlySortedBy pair_cmp) }
    ensures pairs { IfOk result (IsWhollyGenerated images.now generated.now next_images.now next_generated.now) }
{
    let mut out = Vec::new(alloc);
    join(alloc, images, next_generated, &mut out)?;
    join(alloc, generated, next_images, &mut out)?;
    join(alloc, generated, next_generated, &mut out)?;
    Ok(ascending_pairs(out))
}

/// The history from a first root to a last one, by those from the first to one between them and from that to the last.
pub fn chain(
    pool: &Pool,
    first: NodeId,
    last: NodeId,
    h12: &StepHistory,
    h23: &StepHistory,
) -> Result<StepHistory, AllocError>
    requires first { first.0 < length pool.now }
    requires last { last.0 < length pool.now }
    requires earlier { IsHeld pool.now h12.now }
    requires later { IsHeld pool.now h23.now }
    ensures told { IfOk result (TellsChain pool.now first.0 last.0 h12.now h23.now) }
    ensures listed { IfOk result (IsChainAt pool.now first.0 last.0 h12.now h23.now) }
    ensures order { IfOk result Ascends }
    ensures held { IfOk result (IsHeld pool.now) }
{
    pool.laws();
    let alloc = *pool.node(first).uses.allocator();
    let input = nodes_of(alloc, pool, first)?;
    let output = nodes_of(alloc, pool, last)?;
    let a_images = h12.images.as_slice();
    let a_generated = h12.generated.as_slice();
    let b_images = h23.images.as_slice();
    let b_generated = h23.generated.as_slice();
    let images = images_after(alloc, a_images, b_images)?;
    let generated = generated_after(alloc, a_images, a_generated, b_images, b_generated)?;
    let pairs = images.as_slice();
    let removed = removed_of(alloc, pool, &input, &output, pairs)?;
    Ok(StepHistory {
        images,
        generated,
        removed,
    })
}
