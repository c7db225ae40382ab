//! The nodes and the new root of a step that is derived.
ghost use Rattle.std.specs.Prelude.{◌≡◌, ◌<◌, ◌≤◌, ◌+◌, ℕ, All, IfErr, IfOk, length};
ghost use Rattle.shape_pool.specs.Rows.{HasPlaces};
ghost use Rattle.shape_pool.specs.Calls.{Keeps, KeepsLoaded};
ghost use Rattle.key_results.specs.Derivations.{AreLinked, AreVisitsHeld};
ghost use Rattle.key_results.specs.Grown.{AreInOrder, Extends};
ghost use Rattle.key_results.specs.Parts.{AreHeldParts, AreOfOwn, IsHeldPart};
ghost use Rattle.reshape.specs.Making.{IsMade, IsUnmade};

use brep_desk::Steps;
use key_results::{ApplyFault, Outgrowth, Part, Rewritten, Visit, answer_of, new_root, nodes_of};
use shape_pool::Pool;
use std::alloc::Global;
use std::sync::ledger::Ledger;

/// Makes the nodes of a step and the new root, of what comes of its visits.
pub(crate) fn carry_out<L: Ledger>(
    alloc: Global,
    pool: &mut Pool,
    visits: &[Visit],
    outgrowths: &[Outgrowth],
    parts: &[Part],
    steps: &mut Steps<L>,
) -> Result<Rewritten, ApplyFault>
    requires linked { AreLinked visits.now }
    requires held { AreVisitsHeld pool.old visits.now }
    requires long { length outgrowths.now ≡ length visits.now }
    requires parts { (n : ℕ) × AreHeldParts n outgrowths.now }
    requires own { AreOfOwn outgrowths.now }
    requires order { AreInOrder pool.old visits.now outgrowths.now }
    requires of { All (λ p. p.of < length outgrowths.now) parts.now }
    ensures made { IfOk result (IsMade pool.old pool.new visits.now outgrowths.now parts.now) }
    ensures refused { IfErr result (IsUnmade pool.old visits.now outgrowths.now parts.now) }
    ensures extends { Extends pool.old pool.new }
    ensures kept { Keeps pool.old pool.new }
    ensures loaded { KeepsLoaded pool.old pool.new }
    ensures places { (n : ℕ) → HasPlaces pool.old n → AreHeldParts n outgrowths.now
        → All (λ p. p.place.0 < n) parts.now → HasPlaces pool.new n }
    ensures steps { (steps.old ≤ steps.new) × (steps.new ≤ steps.old + length visits.now) }
{
    let nodes = nodes_of(alloc, pool, visits, outgrowths, steps)?;
    let all = nodes.as_slice();
    let root = new_root(alloc, pool, parts, all)?;
    let answer = answer_of(alloc, pool, visits, outgrowths, all, root)?;
    Ok(answer)
}
