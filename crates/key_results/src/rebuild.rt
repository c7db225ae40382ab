//! The nodes that come of keys.
ghost use Rattle.std.specs.Prelude.{◌≡◌, ◌↔◌, ◌<◌, ◌≤◌, ◌+◌, [], ℕ, All, Bool, IsTrue, List, length, map, true};
ghost use Rattle.std.specs.Prelude.{IfErr, IfOk, OnErr};
ghost use Rattle.location_words.specs.declared.pair.Pair.{Pair};
ghost use Rattle.expansion_laws.specs.Trees.{Tree};
ghost use Rattle.expansion_laws.specs.Steps.{root_of};
ghost use Rattle.shape_pool.specs.declared.node.NodeId.{NodeId as SpecId};
ghost use Rattle.shape_pool.specs.Rows.{kind_at, origin_at, tree_at, use_by, AllBelow, HasPlaces};
ghost use Rattle.shape_pool.specs.Calls.{IsTreeOver, Keeps, KeepsLoaded};
ghost use Rattle.shape_pool.specs.Laws.{TellsBelow};
ghost use Rattle.key_results.specs.Derivations.{results_of, AreLinked, AreVisitsHeld};
ghost use Rattle.key_results.specs.Parts.{use_of_part, AreHeldParts, AreOfOwn, AreOutgrowths};
ghost use Rattle.key_results.specs.Grown.{node_uses, AreInOrder, AreNewOwn, Extends, IsMakingRefused, IsNodeRefused};
ghost use Rattle.key_results.specs.Grown.{IsRootRefused, KeepKinds, StandForOwn, StandForParts};

use crate::derive::{Outcome, Visit};
use crate::fault::ApplyFault;
use crate::parts::{Outgrowth, Part};
use crate::words::IDENTITY;
use brep_desk::Steps;
use orientation::Turn;
use shape_pool::{NodeId, Pool, UseOf};
use std::alloc::{AllocError, Global};
use std::sync::ledger::Ledger;

/// The uses that parts stand for, given the nodes that come of the keys.
fn uses_of(alloc: Global, parts: &[Part], nodes: &[NodeId]) -> Result<Vec<UseOf>, AllocError>
    requires { All (λ p. p.of < length nodes.now) parts.now }
    ensures { IfOk result (λ uses. (d : SpecId) → uses.items ≡ node_uses d nodes.now parts.now) }
{
    let mut uses = Vec::new(alloc);
    for part in parts {
        uses.push(UseOf {
            turn: part.turn,
            place: part.place,
            id: nodes[part.of],
        })?;
    }
    Ok(uses)
}

/// The node of a visit, rebuilt over the nodes of parts.
fn rebuilt<L: Ledger>(
    alloc: Global,
    pool: &mut Pool,
    id: NodeId,
    parts: &[Part],
    nodes: &[NodeId],
    steps: &mut Steps<L>,
) -> Result<NodeId, ApplyFault>
    requires id { id.0 < length pool.old }
    requires parts { All (λ p. p.of < length nodes.now) parts.now }
    requires nodes { All (λ n. n.0 < length pool.old) nodes.now }
    requires below { AllBelow pool.old (kind_at pool.old id.0) (node_uses id nodes.now parts.now) }
    ensures held { IfOk result (λ made. made.0 < length pool.new) }
    ensures kind { IfOk result (λ made. kind_at pool.new made.0 ≡ kind_at pool.old id.0) }
    ensures tree { IfOk result (λ made. IsTreeOver pool.old (origin_at pool.old id.0) (node_uses id nodes.now parts.now)
        pool.new made.0) }
    ensures more { IfOk result (λ made. (i : ℕ) → length pool.old ≤ i → i < length pool.new → i ≡ made.0) }
    ensures extends { Extends pool.old pool.new }
    ensures kept { Keeps pool.old pool.new }
    ensures loaded { KeepsLoaded pool.old pool.new }
    ensures places { (n : ℕ) → HasPlaces pool.old n → All (λ p. p.place.0 < n) parts.now → HasPlaces pool.new n }
    ensures steps { (steps.old ≤ steps.new) × (steps.new ≤ steps.old + 1) }
    ensures err { OnErr result (pool.new ≡ pool.old) }
    ensures refused { IfErr result (IsNodeRefused pool.old (origin_at pool.old id.0)
        (node_uses id nodes.now parts.now)) }
{
    let uses = uses_of(alloc, parts, nodes)?;
    let made = pool.rebuild(id, uses.as_slice(), steps)?;
    Ok(made)
}

/// Whether the node that comes of a key is rebuilt.
fn is_made(visit: &Visit, outgrowth: &Outgrowth) -> bool
    ensures { IsTrue result ↔ ((outgrowth.now.own ≡ true) × (visit.now.outcome ≡ Outcome.Rebuilt)) }
{
    match visit.outcome {
        Outcome::Rebuilt => outgrowth.own,
        Outcome::Stays | Outcome::Joined => false,
    }
}

/// The node that comes of a key; that of the visit where none comes of it.
fn node_of<L: Ledger>(
    alloc: Global,
    pool: &mut Pool,
    visit: &Visit,
    outgrowth: &Outgrowth,
    nodes: &[NodeId],
    steps: &mut Steps<L>,
) -> Result<NodeId, ApplyFault>
    requires id { visit.now.id.0 < length pool.old }
    requires parts { All (λ p. p.of < length nodes.now) outgrowth.now.parts.items }
    requires nodes { All (λ n. n.0 < length pool.old) nodes.now }
    requires below { visit.now.outcome ≡ Outcome.Rebuilt
        → AllBelow pool.old (kind_at pool.old visit.now.id.0)
        (node_uses visit.now.id nodes.now outgrowth.now.parts.items) }
    ensures held { IfOk result (λ made. made.0 < length pool.new) }
    ensures kind { IfOk result (λ made. kind_at pool.new made.0 ≡ kind_at pool.old visit.now.id.0) }
    ensures stays { IfOk result (λ made. visit.now.outcome ≡ Outcome.Stays → made ≡ visit.now.id) }
    ensures tree { IfOk result (λ made. visit.now.outcome ≡ Outcome.Rebuilt → outgrowth.now.own ≡ true
        → IsTreeOver pool.old (origin_at pool.old visit.now.id.0)
        (node_uses visit.now.id nodes.now outgrowth.now.parts.items) pool.new made.0) }
    ensures more { IfOk result (λ made. (i : ℕ) → length pool.old ≤ i → i < length pool.new
        → (i ≡ made.0) × (outgrowth.now.own ≡ true)) }
    ensures extends { Extends pool.old pool.new }
    ensures kept { Keeps pool.old pool.new }
    ensures loaded { KeepsLoaded pool.old pool.new }
    ensures places { (n : ℕ) → HasPlaces pool.old n → All (λ p. p.place.0 < n) outgrowth.now.parts.items
        → HasPlaces pool.new n }
    ensures steps { (steps.old ≤ steps.new) × (steps.new ≤ steps.old + 1) }
    ensures err { OnErr result (pool.new ≡ pool.old) }
    ensures refused { IfErr result (λ fault. (outgrowth.now.own ≡ true) × (visit.now.outcome ≡ Outcome.Rebuilt)
        × IsNodeRefused pool.old (origin_at pool.old visit.now.id.0)
        (node_uses visit.now.id nodes.now outgrowth.now.parts.items) fault) }
{
    if is_made(visit, outgrowth) {
        return rebuilt(
            alloc,
            pool,
            visit.id,
            outgrowth.parts.as_slice(),
            nodes,
            steps,
        );
    }
    Ok(visit.id)
}

/// The nodes that come of all keys.
pub fn nodes_of<L: Ledger>(
    alloc: Global,
    pool: &mut Pool,
    visits: &[Visit],
    outgrowths: &[Outgrowth],
    steps: &mut Steps<L>,
) -> Result<Vec<NodeId>, ApplyFault>
    requires long { length outgrowths.now ≡ length visits.now }
    requires held { AreVisitsHeld pool.old visits.now }
    requires linked { AreLinked visits.now }
    requires parts { (n : ℕ) × AreHeldParts n outgrowths.now }
    requires own { AreOfOwn outgrowths.now }
    requires order { AreInOrder pool.old visits.now outgrowths.now }
    ensures kinds { IfOk result (λ nodes. KeepKinds pool.old pool.new visits.now nodes.items) }
    ensures stand { IfOk result (λ nodes. StandForOwn pool.old pool.new visits.now outgrowths.now nodes.items) }
    ensures more { IfOk result (λ nodes. AreNewOwn pool.old pool.new outgrowths.now nodes.items) }
    ensures long { IfOk result (λ nodes. length nodes.items ≡ length visits.now) }
    ensures extends { Extends pool.old pool.new }
    ensures kept { Keeps pool.old pool.new }
    ensures loaded { KeepsLoaded pool.old pool.new }
    ensures places { (n : ℕ) → HasPlaces pool.old n → AreHeldParts n outgrowths.now → HasPlaces pool.new n }
    ensures steps { (steps.old ≤ steps.new) × (steps.new ≤ steps.old + length visits.now) }
    ensures refused { IfErr result (λ fault. (word : ℕ → List Pair) (prune : Bool) (n : ℕ)
        → TellsBelow n word → HasPlaces pool.old n → AreHeldParts n outgrowths.now
        → AreOutgrowths word (results_of word (tree_at word pool.old) prune visits.now) prune visits.now outgrowths.now
        → IsMakingRefused pool.old visits.now outgrowths.now fault word prune) }
{
    let mut nodes = Vec::new(alloc);
    for k in 0..visits.len() {
        pool.laws();
        let id = node_of(
            alloc,
            pool,
            &visits[k],
            &outgrowths[k],
            nodes.as_slice(),
            steps,
        )?;
        if nodes.push(id).is_err() {
            return Err(ApplyFault::NoMemory);
        }
    }
    Ok(nodes)
}

/// The new root: the one result, or a compound over all of them.
pub fn new_root(
    alloc: Global,
    pool: &mut Pool,
    parts: &[Part],
    nodes: &[NodeId],
) -> Result<UseOf, ApplyFault>
    requires parts { All (λ p. p.of < length nodes.now) parts.now }
    requires nodes { All (λ n. n.0 < length pool.old) nodes.now }
    ensures root { IfOk result (λ root. (word : ℕ → List Pair) (own : ℕ → Tree) → word 0 ≡ []
        → StandForParts word pool.old parts.now nodes.now own
        → use_by word (tree_at word pool.new) root ≡ root_of (map (use_of_part word own) parts.now)) }
    ensures held { IfOk result (λ root. root.id.0 < length pool.new) }
    ensures place { IfOk result (λ root. (n : ℕ) → 0 < n → All (λ p. p.place.0 < n) parts.now → root.place.0 < n) }
    ensures more { IfOk result (λ root. (i : ℕ) → length pool.old ≤ i → i < length pool.new → i ≡ root.id.0) }
    ensures extends { Extends pool.old pool.new }
    ensures kept { Keeps pool.old pool.new }
    ensures loaded { KeepsLoaded pool.old pool.new }
    ensures places { (n : ℕ) → HasPlaces pool.old n → All (λ p. p.place.0 < n) parts.now → HasPlaces pool.new n }
    ensures err { OnErr result (pool.new ≡ pool.old) }
    ensures refused { IfErr result (λ fault. (word : ℕ → List Pair) (own : ℕ → Tree) (n : ℕ) → TellsBelow n word
        → HasPlaces pool.old n → All (λ p. p.place.0 < n) parts.now
        → StandForParts word pool.old parts.now nodes.now own
        → IsRootRefused word pool.old (map (use_of_part word own) parts.now) fault) }
{
    pool.laws();
    let uses = uses_of(alloc, parts, nodes)?;
    if uses.len() == 1 {
        let only = uses[0];
        return Ok(only);
    }
    let id = pool.wrap(uses.as_slice())?;
    Ok(UseOf {
        turn: Turn::Forward,
        place: IDENTITY,
        id,
    })
}
