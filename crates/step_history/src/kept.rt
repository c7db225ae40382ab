//! The images of a step's input, and what is left without one.
ghost use Rattle.std.specs.Prelude.{◌<◌, ◌↔◌, ℕ, All, IfOk, IsTrue, OnOk, length, Contains};
ghost use Rattle.std.specs.List.Sorted.{IsStrictlySortedBy};
ghost use Rattle.shape_pool.specs.Rows.{kind_at};
ghost use Rattle.step_history.specs.History.{IsSupported};
ghost use Rattle.lists.specs.Gathering.{Adds, Gathers};
ghost use Rattle.step_history.specs.Gathering.{IsFirst, IsFresh, IsKept, IsLeftOut, IsLost};
ghost use Rattle.step_history.specs.Numbered.{id_cmp, pair_cmp, AreBelow, AreGone, ArePairsHeld};

use crate::ascending::{ascending_ids, ascending_pairs};
use crate::met::Met;
use orientation::Kind;
use shape_pool::{IdPairs, Ids, NodeId, Pool};
use std::alloc::{AllocError, Global};

/// Whether histories speak of shapes of a kind.
pub fn is_spoken_of(kind: Kind) -> bool
    ensures { IsTrue result ↔ IsSupported kind }
{
    match kind {
        Kind::Ve | Kind::Ed | Kind::Fa | Kind::So => true,
        Kind::Wi | Kind::Sh | Kind::CS | Kind::Co => false,
    }
}

/// Whether a node is one of the input's, of a kind of which histories speak.
pub(crate) fn is_of_input(pool: &Pool, input: &Met, id: NodeId) -> bool
    requires { id.0 < length pool.now }
    ensures { IsTrue result ↔ (IsSupported (kind_at pool.now id.0) × Contains input.now id.0) }
{
    is_spoken_of(pool.kind(id)) && input.has(id.0)
}

/// Adds a pair of a shape of the input and its image.
fn keep(
    pool: &Pool,
    input: &Met,
    pair: (NodeId, NodeId),
    kept: &mut Vec<(NodeId, NodeId)>,
) -> Result<(), AllocError>
    requires { pair.0.0 < length pool.now }
    ensures { OnOk result (Adds (IsKept pool.now input.now pair) kept.old.items kept.new.items) }
{
    if !is_of_input(pool, input, pair.0) {
        return Ok(());
    }
    kept.push(pair)?;
    Ok(())
}

/// The pairs of images whose first shape is of the input.
pub(crate) fn images_of(
    alloc: Global,
    pool: &Pool,
    input: &Met,
    images: &[(NodeId, NodeId)],
) -> Result<IdPairs, AllocError>
    requires { ArePairsHeld pool.now images.now }
    ensures kept { IfOk result (Gathers (IsKept pool.now input.now) images.now) }
    ensures order { IfOk result (IsStrictlySortedBy pair_cmp) }
{
    let mut kept = Vec::new(alloc);
    for pair in images {
        keep(pool, input, *pair, &mut kept)?;
    }
    Ok(ascending_pairs(kept))
}

/// The first shapes of pairs.
fn firsts_of(alloc: Global, pairs: &[(NodeId, NodeId)]) -> Result<Met, AllocError>
    ensures { IfOk result (Gathers IsFirst pairs.now) }
{
    let mut firsts = Met::new(alloc);
    for pair in pairs {
        firsts.note(pair.0.0)?;
    }
    Ok(firsts)
}

/// Whether a shape has no image and isn't of the output.
fn is_lost(pool: &Pool, output: &Met, firsts: &Met, id: u32) -> bool
    requires { id < length pool.now }
    ensures { IsTrue result ↔ IsLeftOut pool.now output.now firsts.now id }
{
    is_spoken_of(pool.kind(NodeId(id))) && !firsts.has(id) && !output.has(id)
}

/// Adds a shape of the input that is lost.
fn lose(
    pool: &Pool,
    output: &Met,
    firsts: &Met,
    id: u32,
    lost: &mut Vec<NodeId>,
) -> Result<(), AllocError>
    requires { id < length pool.now }
    ensures { OnOk result (Adds (IsLost pool.now output.now firsts.now id) lost.old.items lost.new.items) }
{
    if !is_lost(pool, output, firsts, id) {
        return Ok(());
    }
    lost.push(NodeId(id))?;
    Ok(())
}

/// The shapes of the input that are first in no pair and aren't of the output, given the first shapes of the pairs.
fn lost_of(
    alloc: Global,
    pool: &Pool,
    input: &Met,
    output: &Met,
    firsts: &Met,
) -> Result<Ids, AllocError>
    requires { All (λ i. i < length pool.now) input.now }
    ensures lost { IfOk result (Gathers (IsLost pool.now output.now firsts.now) input.now) }
    ensures order { IfOk result (IsStrictlySortedBy id_cmp) }
{
    let mut lost = Vec::new(alloc);
    for id in input.as_slice() {
        lose(pool, output, firsts, *id, &mut lost)?;
    }
    Ok(ascending_ids(lost))
}

/// The shapes of an input of which histories speak that are first in no pair and aren't of an output.
pub fn removed_of(
    alloc: Global,
    pool: &Pool,
    input: &Met,
    output: &Met,
    pairs: &[(NodeId, NodeId)],
) -> Result<Ids, AllocError>
    requires { All (λ i. i < length pool.now) input.now }
    ensures gone { (before after : ℕ) → AreBelow pool.now before input.now → AreBelow pool.now after output.now →
        IfOk result (AreGone pool.now before after pairs.now) }
    ensures order { IfOk result (IsStrictlySortedBy id_cmp) }
{
    let firsts = firsts_of(alloc, pairs)?;
    let removed = lost_of(alloc, pool, input, output, &firsts)?;
    Ok(removed)
}

/// Adds the image of a shape that isn't of the input.
fn freshen(input: &Met, pair: (NodeId, NodeId), fresh: &mut Met) -> Result<(), AllocError>
    ensures { OnOk result (Adds (IsFresh input.now pair) fresh.old fresh.new) }
{
    if input.has(pair.0.0) {
        return Ok(());
    }
    fresh.note(pair.1.0)?;
    Ok(())
}

/// The images of shapes that aren't of the input.
pub(crate) fn fresh_of(
    alloc: Global,
    input: &Met,
    images: &[(NodeId, NodeId)],
) -> Result<Met, AllocError>
    ensures { IfOk result (Gathers (IsFresh input.now) images.now) }
{
    let mut fresh = Met::new(alloc);
    for pair in images {
        freshen(input, *pair, &mut fresh)?;
    }
    Ok(fresh)
}
