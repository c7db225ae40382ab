//! What is generated: new shapes of lower kinds that stand below what took the place of a shape.
ghost use Rattle.std.specs.Prelude.{◌≡◌, ◌<◌, ◌↔◌, ◌⊎◌, [], All, Contains, IfOk, IsTrue, OnOk, length};
ghost use Rattle.std.specs.List.Sorted.{IsStrictlySortedBy};
ghost use Rattle.orientation.specs.Rules.{is_above};
ghost use Rattle.shape_pool.specs.Rows.{kind_at};
ghost use Rattle.step_history.specs.History.{IsSupported};
ghost use Rattle.lists.specs.Gathering.{Adds, Gathers};
ghost use Rattle.step_history.specs.Gathering.{IsMadeOf, IsNewOf, IsPair, IsPicked, IsWalk};
ghost use Rattle.step_history.specs.Numbered.{pair_cmp, ArePairsHeld};

use crate::ascending::{ascending_copy, ascending_pairs};
use crate::below::meet_below;
use crate::kept::{is_of_input, is_spoken_of};
use crate::met::Met;
use orientation::Kind;
use shape_pool::{IdPairs, NodeId, Pool};
use std::alloc::{AllocError, Global};

/// A walk below all that took the place of one shape, which goes over each node once.
#[derive(Drop)]
struct Walk {
    from: NodeId,
    met: Met,
}

/// Turns to a shape: the walk begins anew where it was below another one.
fn turn_to(walk: &mut Walk, from: NodeId)
    ensures from { walk.new.from.0 ≡ from.0 }
    ensures met { (walk.new.met ≡ []) ⊎ ((walk.new.met ≡ walk.old.met) × (walk.old.from.0 ≡ from.0)) }
{
    if walk.from.0 == from.0 {
        return;
    }
    walk.from = from;
    walk.met.clear();
}

/// Whether the first kind is lower than the second.
fn is_lower(low: Kind, high: Kind) -> bool
    ensures { result ≡ is_above low high }
{
    (low as u8) < (high as u8)
}

/// Whether a shape came new of another: it is of a lower kind, and one of the new ones.
fn came_new(pool: &Pool, fresh: &Met, from: NodeId, id: u32) -> bool
    requires from { from.0 < length pool.now }
    requires id { id < length pool.now }
    ensures { IsTrue result ↔ IsNewOf pool.now fresh.now from.0 id }
{
    let kind = pool.kind(NodeId(id));
    is_spoken_of(kind) && is_lower(kind, pool.kind(from)) && fresh.has(id)
}

/// Adds a shape that came new of another.
fn pick_one(
    pool: &Pool,
    fresh: &Met,
    from: NodeId,
    id: u32,
    out: &mut Vec<(NodeId, NodeId)>,
) -> Result<(), AllocError>
    requires from { from.0 < length pool.now }
    requires id { id < length pool.now }
    ensures { OnOk result (Adds (IsPair pool.now fresh.now from id) out.old.items out.new.items) }
{
    if !came_new(pool, fresh, from, id) {
        return Ok(());
    }
    out.push((from, NodeId(id)))?;
    Ok(())
}

/// Adds those of some shapes that came new of another.
fn pick(
    pool: &Pool,
    fresh: &Met,
    from: NodeId,
    ids: &[u32],
    out: &mut Vec<(NodeId, NodeId)>,
) -> Result<(), AllocError>
    requires from { from.0 < length pool.now }
    requires ids { All (λ i. i < length pool.now) ids.now }
    ensures { OnOk result (Adds (IsPicked pool.now fresh.now from ids.now) out.old.items out.new.items) }
{
    for id in ids {
        pick_one(pool, fresh, from, *id, out)?;
    }
    Ok(())
}

/// Adds what came new of a shape of the input below one that took its place, and wasn't met yet on the walk for that
/// shape.
fn make(
    pool: &Pool,
    input: &Met,
    fresh: &Met,
    pair: (NodeId, NodeId),
    walk: &mut Walk,
    out: &mut Vec<(NodeId, NodeId)>,
) -> Result<(), AllocError>
    requires first { pair.0.0 < length pool.now }
    requires second { pair.1.0 < length pool.now }
    requires walk { IsWalk pool.now fresh.now walk.old.from walk.old.met out.old.items }
    ensures made { OnOk result (Adds (IsMadeOf pool.now input.now fresh.now pair) out.old.items out.new.items) }
    ensures walk { OnOk result (IsWalk pool.now fresh.now walk.new.from walk.new.met out.new.items) }
{
    if !is_of_input(pool, input, pair.0) {
        return Ok(());
    }
    pool.laws();
    turn_to(walk, pair.0);
    let before = walk.met.len();
    meet_below(pool, pair.1, &mut walk.met)?;
    pick(pool, fresh, pair.0, walk.met.since(before), out)?;
    Ok(())
}

/// The pairs of a shape of the input that was replaced and what came new of it.
pub(crate) fn made_of(
    alloc: Global,
    pool: &Pool,
    input: &Met,
    fresh: &Met,
    replaced: &[(NodeId, NodeId)],
) -> Result<IdPairs, AllocError>
    requires { ArePairsHeld pool.now replaced.now }
    ensures made { IfOk result (Gathers (IsMadeOf pool.now input.now fresh.now) replaced.now) }
    ensures order { IfOk result (IsStrictlySortedBy pair_cmp) }
{
    let sorted = ascending_copy(alloc, replaced)?;
    let met = Met::new(alloc);
    let mut walk = Walk {
        from: NodeId(0),
        met,
    };
    let mut out = Vec::new(alloc);
    for pair in sorted.as_slice() {
        make(pool, input, fresh, *pair, &mut walk, &mut out)?;
    }
    Ok(ascending_pairs(out))
}
