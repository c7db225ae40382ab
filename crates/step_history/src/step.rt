//! The history of a step.
ghost use Rattle.std.specs.Prelude.{◌<◌, ℕ, All, IfOk, length};
ghost use Rattle.step_history.specs.Gathering.{IsReadOff};
ghost use Rattle.step_history.specs.Numbered.{AreBelow, AreGone, ArePairsHeld, Ascends, IsHeld, IsStepAt, TellsStep};

use crate::below::nodes_of;
use crate::history::StepHistory;
use crate::kept::{fresh_of, images_of, removed_of};
use crate::made::made_of;
use crate::met::Met;
use shape_pool::{IdPairs, NodeId, Pool};
use std::alloc::{AllocError, Global};

/// The history between the nodes of an input and those of an output.
fn read_off(
    alloc: Global,
    pool: &Pool,
    input: &Met,
    output: &Met,
    images: &[(NodeId, NodeId)],
    replaced: &[(NodeId, NodeId)],
) -> Result<StepHistory, AllocError>
    requires input { All (λ i. i < length pool.now) input.now }
    requires images { ArePairsHeld pool.now images.now }
    requires replaced { ArePairsHeld pool.now replaced.now }
    ensures read { IfOk result (IsReadOff pool.now input.now images.now replaced.now) }
    ensures gone { (before after : ℕ) → AreBelow pool.now before input.now → AreBelow pool.now after output.now →
        IfOk result (λ h. AreGone pool.now before after h.images h.removed) }
    ensures order { IfOk result Ascends }
{
    let kept = images_of(alloc, pool, input, images)?;
    let pairs = kept.as_slice();
    let removed = removed_of(alloc, pool, input, output, pairs)?;
    let fresh = fresh_of(alloc, input, images)?;
    let generated = made_of(alloc, pool, input, &fresh, replaced)?;
    Ok(StepHistory {
        images: kept,
        generated,
        removed,
    })
}

/// The history of a step from one root to another, given the images of all trees that the step visited, and the pairs
/// of a tree that met a replace and one that took its place.
///
/// It goes over the nodes below both roots once, and over those below what took a shape's place once for each such
/// shape.
pub fn of_step(
    pool: &Pool,
    before: NodeId,
    after: NodeId,
    images: &IdPairs,
    replaced: &IdPairs,
) -> Result<StepHistory, AllocError>
    requires before { before.0 < length pool.now }
    requires after { after.0 < length pool.now }
    requires images { ArePairsHeld pool.now images.now }
    requires replaced { ArePairsHeld pool.now replaced.now }
    ensures told { IfOk result (TellsStep pool.now before.0 after.0 images.now replaced.now) }
    ensures listed { IfOk result (IsStepAt pool.now before.0 after.0 images.now replaced.now) }
    ensures order { IfOk result Ascends }
    ensures held { IfOk result (IsHeld pool.now) }
{
    pool.laws();
    let alloc = *pool.node(before).uses.allocator();
    let input = nodes_of(alloc, pool, before)?;
    let output = nodes_of(alloc, pool, after)?;
    let imaged = images.as_slice();
    let replacing = replaced.as_slice();
    let history = read_off(alloc, pool, &input, &output, imaged, replacing)?;
    Ok(history)
}
