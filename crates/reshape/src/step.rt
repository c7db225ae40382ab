//! A step, carried out by keys.
ghost use Rattle.std.specs.Prelude.{◌≡◌, ◌<◌, ◌≤◌, ◌+◌, ℕ, All, IfErr, IfOk, OnErr, OnOk, length};
ghost use Rattle.requests.specs.Numbered.{Table};
ghost use Rattle.shape_pool.specs.Rows.{HasPlaces};
ghost use Rattle.shape_pool.specs.Calls.{Keeps, KeepsLoaded};
ghost use Rattle.key_results.specs.Derivations.{AreLinked, AreVisitsHeld};
ghost use Rattle.key_results.specs.Grown.{AreInOrder};
ghost use Rattle.key_results.specs.Parts.{AreHeldParts, AreOfOwn};
ghost use Rattle.key_results.specs.Words.{GrowsTo};
ghost use Rattle.reshape.specs.Answers.{IsDueLimit, IsHeldAnswer, IsRewritten, IsWithinLimits, PairsAscend, RisesByKeys};
ghost use Rattle.reshape.specs.Making.{IsMade, IsUnmade};
ghost use Rattle.reshape.specs.Readings.{InSteps, IsCarriedOut};

use crate::derive::{Derived, derive_step};
use crate::laws::steps_have_laws;
use crate::making::carry_out;
use brep_desk::Steps;
use expansion_laws::laws::subtrees_stand;
use key_results::laws::{nodes_stand_for_results, outgrowths_give_results};
use key_results::{ApplyFault, Rewritten};
use location_words::Words;
use requests::Plan;
use shape_pool::{Pool, UseOf};
use std::alloc::Global;
use std::sync::ledger::Ledger;

/// Makes the nodes and the new root of a step that is derived. After a fault the pool is as it was.
fn make<L: Ledger>(
    alloc: Global,
    pool: &mut Pool,
    derived: &Derived,
    steps: &mut Steps<L>,
) -> Result<Rewritten, ApplyFault>
    requires linked { AreLinked derived.now.visits.items }
    requires held { AreVisitsHeld pool.old derived.now.visits.items }
    requires long { length derived.now.outgrowths.items ≡ length derived.now.visits.items }
    requires parts { (n : ℕ) × AreHeldParts n derived.now.outgrowths.items }
    requires own { AreOfOwn derived.now.outgrowths.items }
    requires order { AreInOrder pool.old derived.now.visits.items derived.now.outgrowths.items }
    requires of { All (λ p. p.of < length derived.now.outgrowths.items) derived.now.root.items }
    ensures made { IfOk result (IsMade pool.old pool.new derived.now.visits.items derived.now.outgrowths.items
        derived.now.root.items) }
    ensures refused { IfErr result (IsUnmade pool.old derived.now.visits.items derived.now.outgrowths.items
        derived.now.root.items) }
    ensures err { OnErr result (pool.new ≡ pool.old) }
    ensures kept { Keeps pool.old pool.new }
    ensures loaded { KeepsLoaded pool.old pool.new }
    ensures places { (n : ℕ) → HasPlaces pool.old n → AreHeldParts n derived.now.outgrowths.items
        → All (λ p. p.place.0 < n) derived.now.root.items → HasPlaces pool.new n }
    ensures steps { (steps.old ≤ steps.new) × (steps.new ≤ steps.old + length derived.now.visits.items) }
{
    let mark = pool.mark();
    let visits = derived.visits.as_slice();
    let outgrowths = derived.outgrowths.as_slice();
    let parts = derived.root.as_slice();
    match carry_out(alloc, pool, visits, outgrowths, parts, steps) {
        Ok(made) => Ok(made),
        Err(fault) => {
            pool.back(mark);
            Err(fault)
        }
    }
}

/// Carries a step out from a root, by its plan, each key of it once.
///
/// Where a limit is passed, the fault is one of the first group of tests in which one fails. After a fault the pool is
/// as it was. The table of words may hold further words.
pub fn apply<L: Ledger>(
    pool: &mut Pool,
    words: &mut Words,
    plan: &Plan,
    root: UseOf,
    steps: &mut Steps<L>,
) -> Result<Rewritten, ApplyFault>
    requires root { root.id.0 < length pool.old }
    requires place { root.place.0 < length words.old }
    requires places { HasPlaces pool.old (length words.old) }
    requires plan { (t : Table) × IsCarriedOut pool.old (length words.old) root.id.0 plan.now t }
    ensures rewritten { IfOk result (λ made. InSteps pool.old (length words.old) root.id.0 plan.now words.new
        (IsRewritten pool.old pool.new root made)) }
    ensures order { IfOk result PairsAscend }
    ensures held { IfOk result (IsHeldAnswer pool.new (length words.new)) }
    ensures within { OnOk result (InSteps pool.old (length words.old) root.id.0 plan.now words.new
        (IsWithinLimits pool.old root)) }
    ensures refused { IfErr result (λ fault. InSteps pool.old (length words.old) root.id.0 plan.now words.new
        (IsDueLimit pool.old root fault)) }
    ensures steps { InSteps pool.old (length words.old) root.id.0 plan.now words.new
        (RisesByKeys pool.old root steps.old steps.new) }
    ensures rise { steps.old ≤ steps.new }
    ensures err { OnErr result (pool.new ≡ pool.old) }
    ensures kept { Keeps pool.old pool.new }
    ensures loaded { KeepsLoaded pool.old pool.new }
    ensures places { HasPlaces pool.new (length words.new) }
    ensures words { GrowsTo words.old words.new }
{
    steps_have_laws();
    subtrees_stand();
    outgrowths_give_results();
    nodes_stand_for_results();
    let alloc = *pool.node(root.id).uses.allocator();
    let derived = derive_step(alloc, pool, words, plan, root)?;
    let made = make(alloc, pool, &derived, steps)?;
    pool.laws();
    Ok(made)
}
