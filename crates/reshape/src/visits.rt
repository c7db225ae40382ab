//! The visits of a step, key by key.
ghost use Rattle.std.specs.Prelude.{◌≡◌, ◌<◌, IfErr, IfOk, length};
ghost use Rattle.shape_pool.specs.Rows.{tree_at, use_by, HasPlaces};
ghost use Rattle.requests.specs.Numbered.{Table};
ghost use Rattle.key_results.specs.Words.{GrowsTo};
ghost use Rattle.key_results.specs.Derivations.{AreLinked, ArePlaced, AreVisitsHeld};
ghost use Rattle.reshape.specs.Readings.{InRootSteps, IsCarriedOut};
ghost use Rattle.reshape.specs.Collecting.{IsDerivedBy, IsKeysDue};

use crate::link::visits_of;
use crate::order::keys_of;
use key_results::{ApplyFault, Visit};
use location_words::Words;
use requests::Plan;
use shape_pool::{Pool, UseOf};
use std::alloc::Global;

/// The visits of a step, one for each of its keys. Those of the root's key are the last.
pub(crate) fn visits_of_step(
    alloc: Global,
    pool: &Pool,
    words: &mut Words,
    plan: &Plan,
    root: UseOf,
) -> Result<Vec<Visit>, ApplyFault>
    requires root { root.id.0 < length pool.now }
    requires place { root.place.0 < length words.old }
    requires places { HasPlaces pool.now (length words.old) }
    requires plan { (t : Table) × IsCarriedOut pool.now (length words.old) root.id.0 plan.now t }
    ensures derived { IfOk result (λ visits. InRootSteps pool.now (length words.old) root.id.0 plan.now words.new (λ s word.
        IsDerivedBy pool.now s word (use_by word (tree_at word pool.now) root) visits.items)) }
    ensures linked { IfOk result (λ visits. AreLinked visits.items) }
    ensures held { IfOk result (λ visits. AreVisitsHeld pool.now visits.items) }
    ensures placed { IfOk result (λ visits. ArePlaced (length words.new) visits.items) }
    ensures some { IfOk result (λ visits. 0 < length visits.items) }
    ensures refused { IfErr result (λ fault. InRootSteps pool.now (length words.old) root.id.0 plan.now words.new
        (λ s word. IsKeysDue s (use_by word (tree_at word pool.now) root) fault)) }
    ensures grows { GrowsTo words.old words.new }
{
    pool.laws();
    let keys = keys_of(alloc, pool, words, plan, root)?;
    let visits = visits_of(alloc, pool, words, plan, &keys)?;
    Ok(visits)
}
