//! Lists of pairs put together: sorted by their middle numbers, and gone through side by side.
ghost use Rattle.std.specs.Prelude.{◌<◌, ◌≤◌, ◌↔◌, Contains, IfOk, OnOk, length};
ghost use Rattle.std.specs.List.Sorted.{IsStrictlySortedBy};
ghost use Rattle.shape_pool.specs.declared.node.NodeId.{NodeId};
ghost use Rattle.lists.specs.Gathering.{Adds};
ghost use Rattle.step_history.specs.Numbered.{pair_cmp};
ghost use Rattle.history_merge.specs.Joined.{AreBefore, IsFollowed, IsHere, IsJoined, IsOnto};

use shape_pool::{IdPairs, NodeId};
use std::alloc::{AllocError, Global};
use step_history::{ascending_copy, ascending_pairs};

/// The pairs the other way round, in ascending order.
fn flipped(alloc: Global, pairs: &[(NodeId, NodeId)]) -> Result<IdPairs, AllocError>
    ensures order { IfOk result (IsStrictlySortedBy pair_cmp) }
    ensures same { IfOk result (λ made. (a b : NodeId) → Contains made (a, b) ↔ Contains pairs.now (b, a)) }
{
    let mut out = Vec::new(alloc);
    for pair in pairs {
        out.push((pair.1, pair.0))?;
    }
    Ok(ascending_pairs(out))
}

/// The place from which on firsts aren't below a number, where they are before a given place.
fn skip(pairs: &[(NodeId, NodeId)], from: usize, middle: NodeId) -> usize
    requires within { from ≤ length pairs.now }
    requires before { AreBefore pairs.now from middle.0 }
    ensures within { result ≤ length pairs.now }
    ensures before { AreBefore pairs.now result middle.0 }
    ensures here { IsHere pairs.now result middle.0 }
{
    for at in from..pairs.len() {
        if pairs[at].0.0 >= middle.0 {
            return at;
        }
    }
    pairs.len()
}

/// Adds the pairs of a number and each with which a middle one is paired, from the place on where the middle one comes
/// first.
fn spread(
    pairs: &[(NodeId, NodeId)],
    from: usize,
    middle: NodeId,
    first: NodeId,
    out: &mut Vec<(NodeId, NodeId)>,
) -> Result<(), AllocError>
    requires order { IsStrictlySortedBy pair_cmp pairs.now }
    requires within { from ≤ length pairs.now }
    requires before { AreBefore pairs.now from middle.0 }
    requires here { IsHere pairs.now from middle.0 }
    ensures { OnOk result (Adds (IsOnto pairs.now middle first) out.old.items out.new.items) }
{
    for at in from..pairs.len() {
        if pairs[at].0.0 != middle.0 {
            return Ok(());
        }
        out.push((first, pairs[at].1))?;
    }
    Ok(())
}

/// Adds what follows: both lists are sorted by the middle numbers, which come first in each.
fn follow(
    firsts: &[(NodeId, NodeId)],
    seconds: &[(NodeId, NodeId)],
    out: &mut Vec<(NodeId, NodeId)>,
) -> Result<(), AllocError>
    requires firsts { IsStrictlySortedBy pair_cmp firsts.now }
    requires seconds { IsStrictlySortedBy pair_cmp seconds.now }
    ensures { OnOk result (Adds (IsFollowed firsts.now seconds.now) out.old.items out.new.items) }
{
    let mut at = 0;
    for pair in firsts {
        at = skip(seconds, at, pair.0);
        spread(seconds, at, pair.0, pair.1, out)?;
    }
    Ok(())
}

/// Adds the pairs that two lists of pairs make, the one after the other.
pub(crate) fn join(
    alloc: Global,
    firsts: &[(NodeId, NodeId)],
    seconds: &[(NodeId, NodeId)],
    out: &mut Vec<(NodeId, NodeId)>,
) -> Result<(), AllocError>
    ensures { OnOk result (Adds (IsJoined firsts.now seconds.now) out.old.items out.new.items) }
{
    let turned = flipped(alloc, firsts)?;
    let sorted = ascending_copy(alloc, seconds)?;
    let left = turned.as_slice();
    let right = sorted.as_slice();
    follow(left, right, out)?;
    Ok(())
}
