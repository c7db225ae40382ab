//! The answer of a step that is carried out.
ghost use Rattle.std.specs.Prelude.{◌≡◌, ◌⊎◌, ◌↔◌, ℕ, false, true, Contains, IfOk, length};
ghost use Rattle.std.specs.List.Sorted.{IsStrictlySortedBy};
ghost use Rattle.shape_pool.specs.declared.node.NodeId.{NodeId as SpecId};
ghost use Rattle.step_history.specs.Numbered.{pair_cmp};
ghost use Rattle.key_results.specs.Derivations.{AreVisitsHeld};
ghost use Rattle.key_results.specs.Parts.{AreHeldParts};
ghost use Rattle.key_results.specs.Pairs.{IsPairOf, IsUnseen};

use crate::derive::Visit;
use crate::images::{add_unseen, pairs_of};
use crate::parts::Outgrowth;
use crate::rewritten::Rewritten;
use shape_pool::{NodeId, Pool, UseOf};
use std::alloc::{AllocError, Global};
use step_history::ascending_pairs;

/// The new root, with what became of the nodes that were visited.
pub fn answer_of(
    alloc: Global,
    pool: &Pool,
    visits: &[Visit],
    outgrowths: &[Outgrowth],
    nodes: &[NodeId],
    root: UseOf,
) -> Result<Rewritten, AllocError>
    requires held { AreVisitsHeld pool.now visits.now }
    requires long { length outgrowths.now ≡ length visits.now }
    requires nodes { length nodes.now ≡ length visits.now }
    requires parts { (n : ℕ) × AreHeldParts n outgrowths.now }
    ensures root { IfOk result (λ made. made.root ≡ root) }
    ensures images { IfOk result (λ made. (p : SpecId × SpecId) → Contains made.images p
        ↔ (IsPairOf visits.now outgrowths.now nodes.now true p ⊎ ((p.1 ≡ p.0) × IsUnseen pool.now visits.now p.0.0))) }
    ensures replaced { IfOk result (λ made. (p : SpecId × SpecId) → Contains made.replaced p
        ↔ IsPairOf visits.now outgrowths.now nodes.now false p) }
    ensures images_ascend { IfOk result (λ made. IsStrictlySortedBy pair_cmp made.images) }
    ensures replaced_ascend { IfOk result (λ made. IsStrictlySortedBy pair_cmp made.replaced) }
{
    let mut images = pairs_of(alloc, visits, outgrowths, nodes, true)?;
    add_unseen(alloc, pool, visits, &mut images)?;
    let replaced = pairs_of(alloc, visits, outgrowths, nodes, false)?;
    Ok(Rewritten {
        root,
        images: ascending_pairs(images),
        replaced: ascending_pairs(replaced),
    })
}
