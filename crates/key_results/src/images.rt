//! What became of the nodes that a step visited.
ghost use Rattle.std.specs.Prelude.{◌≡◌, ◌⊎◌, ◌↔◌, ◌<◌, ◌≤◌, ℕ, All, Contains, IfOk, IsTrue, OnOk, length, true};
ghost use Rattle.shape_pool.specs.declared.node.NodeId.{NodeId as SpecId};
ghost use Rattle.shape_pool.specs.Laws.{ids_used};
ghost use Rattle.key_results.specs.Derivations.{AreVisitsHeld};
ghost use Rattle.key_results.specs.Parts.{AreHeldParts};
ghost use Rattle.key_results.specs.Pairs.{IsMarked, IsNodeOf, IsPairHere, IsPairOf, IsUnseen, IsUsedByStopped};

use crate::derive::{Outcome, Visit};
use crate::parts::Outgrowth;
use shape_pool::{NodeId, Pool};
use std::alloc::{AllocError, Global};

/// Adds the pairs of a node and those of the results of its key.
fn add_pairs(
    id: NodeId,
    key: usize,
    outgrowth: &Outgrowth,
    nodes: &[NodeId],
    pairs: &mut Vec<(NodeId, NodeId)>,
) -> Result<(), AllocError>
    requires key { key < length nodes.now }
    requires parts { All (λ p. p.of < length nodes.now) outgrowth.now.parts.items }
    ensures { OnOk result ((p : SpecId × SpecId) → Contains pairs.new.items p
        ↔ (Contains pairs.old.items p ⊎ ((p.0 ≡ id) × IsNodeOf nodes.now key outgrowth.now p.1))) }
{
    if outgrowth.own {
        pairs.push((id, nodes[key]))?;
        return Ok(());
    }
    for part in outgrowth.parts.as_slice() {
        pairs.push((id, nodes[part.of]))?;
    }
    Ok(())
}

/// Whether the pairs of a visit are wanted: of each, or of those alone that meet a replace, or a remove, after which
/// there is nothing.
fn is_chosen(outcome: Outcome, all: bool) -> bool
    ensures { IsTrue result ↔ ((all ≡ true) ⊎ (outcome ≡ Outcome.Joined)) }
{
    match outcome {
        Outcome::Joined => true,
        Outcome::Stays | Outcome::Rebuilt => all,
    }
}

/// Adds the pairs of the node of a visit, of each visit or of one alone that meets a replace.
fn add_chosen(
    visit: &Visit,
    key: usize,
    outgrowth: &Outgrowth,
    nodes: &[NodeId],
    all: bool,
    pairs: &mut Vec<(NodeId, NodeId)>,
) -> Result<(), AllocError>
    requires key { key < length nodes.now }
    requires parts { All (λ p. p.of < length nodes.now) outgrowth.now.parts.items }
    ensures { OnOk result ((p : SpecId × SpecId) → Contains pairs.new.items p
        ↔ (Contains pairs.old.items p ⊎ IsPairHere visit.now key outgrowth.now nodes.now all p)) }
{
    if is_chosen(visit.outcome, all) {
        return add_pairs(visit.id, key, outgrowth, nodes, pairs);
    }
    Ok(())
}

/// The pairs of a node and of a result of its visits, of all visits or of those alone that meet a replace.
pub fn pairs_of(
    alloc: Global,
    visits: &[Visit],
    outgrowths: &[Outgrowth],
    nodes: &[NodeId],
    all: bool,
) -> Result<Vec<(NodeId, NodeId)>, AllocError>
    requires long { length outgrowths.now ≡ length visits.now }
    requires nodes { length nodes.now ≡ length visits.now }
    requires parts { (n : ℕ) × AreHeldParts n outgrowths.now }
    ensures { IfOk result (λ pairs. (p : SpecId × SpecId)
        → Contains pairs.items p ↔ IsPairOf visits.now outgrowths.now nodes.now all p) }
{
    let mut pairs = Vec::new(alloc);
    for k in 0..visits.len() {
        add_chosen(&visits[k], k, &outgrowths[k], nodes, all, &mut pairs)?;
    }
    Ok(pairs)
}

/// Marks the nodes that the uses of a node name.
fn mark_used(pool: &Pool, id: NodeId, marks: &mut [bool])
    requires id { id.0 < length pool.now }
    requires long { length marks.old ≡ length pool.now }
    ensures long { length marks.new ≡ length marks.old }
    ensures marked { (i : ℕ) → IsMarked marks.new i ↔ (IsMarked marks.old i ⊎ Contains (ids_used pool.now id.0) i) }
{
    for at in 0..pool.use_count(id) {
        marks[pool.used_at(id, at).0 as usize] = true;
    }
}

/// Whether the visits of a key stop.
fn stops(outcome: Outcome) -> bool
    ensures { IsTrue result ↔ (outcome ≡ Outcome.Stays) }
{
    match outcome {
        Outcome::Stays => true,
        Outcome::Joined | Outcome::Rebuilt => false,
    }
}

/// Marks the nodes that the uses of the node of a visit name, where it stops.
fn mark_if_stopped(pool: &Pool, visit: &Visit, marks: &mut [bool])
    requires id { visit.now.id.0 < length pool.now }
    requires long { length marks.old ≡ length pool.now }
    ensures long { length marks.new ≡ length marks.old }
    ensures marked { (i : ℕ) → IsMarked marks.new i
        ↔ (IsMarked marks.old i
        ⊎ ((visit.now.outcome ≡ Outcome.Stays) × Contains (ids_used pool.now visit.now.id.0) i)) }
{
    if stops(visit.outcome) {
        return mark_used(pool, visit.id, marks);
    }
}

/// Marks the nodes that the uses of the nodes of stopped visits name.
fn mark_stopped(pool: &Pool, visits: &[Visit], marks: &mut [bool])
    requires held { AreVisitsHeld pool.now visits.now }
    requires long { length marks.old ≡ length pool.now }
    ensures long { length marks.new ≡ length marks.old }
    ensures marked { (i : ℕ) → IsMarked marks.new i
        ↔ (IsMarked marks.old i ⊎ IsUsedByStopped pool.now visits.now i) }
{
    for visit in visits {
        mark_if_stopped(pool, visit, marks);
    }
}

/// Of a marked node adds the pair with itself, and marks the nodes that its uses name.
fn see(
    pool: &Pool,
    id: NodeId,
    marks: &mut [bool],
    pairs: &mut Vec<(NodeId, NodeId)>,
) -> Result<(), AllocError>
    requires id { id.0 < length pool.now }
    requires long { length marks.old ≡ length pool.now }
    ensures long { length marks.new ≡ length marks.old }
    ensures marked { OnOk result ((i : ℕ) → IsMarked marks.new i
        ↔ (IsMarked marks.old i ⊎ (IsMarked marks.old id.0 × Contains (ids_used pool.now id.0) i))) }
    ensures pairs { OnOk result ((p : SpecId × SpecId) → Contains pairs.new.items p
        ↔ (Contains pairs.old.items p ⊎ (IsMarked marks.old id.0 × ((id, id) ≡ p)))) }
{
    if marks[id.0 as usize] {
        mark_used(pool, id, marks);
        pairs.push((id, id))?;
        return Ok(());
    }
    Ok(())
}

/// Adds the pairs of each node that stands properly below one of a visit that stops, and itself, by marks that are all
/// clear.
fn see_all(
    pool: &Pool,
    visits: &[Visit],
    marks: &mut [bool],
    pairs: &mut Vec<(NodeId, NodeId)>,
) -> Result<(), AllocError>
    requires held { AreVisitsHeld pool.now visits.now }
    requires long { length marks.old ≡ length pool.now }
    requires clear { (i : ℕ) → ¬ IsMarked marks.old i }
    ensures { OnOk result ((p : SpecId × SpecId) → Contains pairs.new.items p
        ↔ (Contains pairs.old.items p ⊎ ((p.1 ≡ p.0) × IsUnseen pool.now visits.now p.0.0))) }
{
    pool.laws();
    mark_stopped(pool, visits, marks);
    let count = pool.mark();
    for done in 0..count {
        see(pool, NodeId(count - 1 - done), marks, pairs)?;
    }
    Ok(())
}

/// Adds the pairs of each node that stands properly below one of a visit that stops, and itself.
pub fn add_unseen(
    alloc: Global,
    pool: &Pool,
    visits: &[Visit],
    pairs: &mut Vec<(NodeId, NodeId)>,
) -> Result<(), AllocError>
    requires { AreVisitsHeld pool.now visits.now }
    ensures { OnOk result ((p : SpecId × SpecId) → Contains pairs.new.items p
        ↔ (Contains pairs.old.items p ⊎ ((p.1 ≡ p.0) × IsUnseen pool.now visits.now p.0.0))) }
{
    let mut marks = vec![in alloc; false; pool.mark() as usize]?;
    see_all(pool, visits, marks.as_mut_slice(), pairs)
}
