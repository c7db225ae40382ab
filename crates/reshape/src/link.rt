//! How keys follow from one another.
ghost use Rattle.std.specs.Prelude.{◌≡◌, ◌<◌, ◌++◌, ◌∷◌, [], ℕ, All, Contains, IfErr, IfOk, OnOk, Some, length, slice_get};
ghost use Rattle.lists.specs.Distinct.{IsDistinct};
ghost use Rattle.location_words.specs.declared.fault.WordFault.{WordFault};
ghost use Rattle.shape_pool.specs.Rows.{HasPlaces};
ghost use Rattle.requests.specs.Plans.{ids_of};
ghost use Rattle.key_results.specs.declared.derive.Link.{Link as SpecLink};
ghost use Rattle.key_results.specs.declared.fault.ApplyFault.{ApplyFault};
ghost use Rattle.key_results.specs.Words.{GrowsTo, IsHeldMover};
ghost use Rattle.key_results.specs.Memos.{place_here, IsHeldKey};
ghost use Rattle.key_results.specs.Derivations.{ArePlaced, AreVisitsHeld, IsPlacedVisit};
ghost use Rattle.key_results.specs.Derived.{IsDerivation, IsVisitOf};
ghost use Rattle.reshape.specs.Readings.{HasTable, InAnySteps};
ghost use Rattle.reshape.specs.Asking.{IsHeldAsked};
ghost use Rattle.reshape.specs.Collecting.{AreBottomUp, AreLinksTo, HasKeyFrom, HaveKeysFrom, IsAskedBefore};
ghost use Rattle.reshape.specs.Collecting.{IsDemanded, IsFoundKey, IsLinkTo};

use crate::asked::{Asked, asked_at, asked_of};
use crate::keying::key_of_use;
use crate::memo::place_among;
use expansion_laws::laws::{demands_are_edges, keys_stand_for_visits};
use indexmap::IndexSet;
use key_results::{ApplyFault, Key, Link, Mover, Visit};
use location_words::laws::limits_tell;
use location_words::{WordFault, Words};
use requests::Plan;
use shape_pool::{NodeId, Pool, UseOf};
use std::alloc::Global;

/// The place of the key of a use that the visits of another key ask for under a mover.
fn find_key(
    alloc: Global,
    pool: &Pool,
    words: &mut Words,
    plan: &Plan,
    keys: &IndexSet<Key>,
    from: Key,
    mover: Mover,
    u: UseOf,
) -> Result<Option<usize>, WordFault>
    requires places { HasPlaces pool.now (length words.old) }
    requires held { All (IsHeldKey pool.now (length words.old)) keys.now.keys }
    requires from { place_here from < length words.old }
    requires mover { IsHeldMover (length words.old) mover }
    requires id { u.id.0 < length pool.now }
    requires own { u.place.0 < length words.old }
    requires planned { Contains (ids_of plan.now.nodes) from.id.0 }
    ensures found { IfOk result (λ o. InAnySteps pool.now (length words.old) plan.now words.new (λ s word.
        IsDemanded pool.now s word from mover u → HasKeyFrom pool.now s word keys.now.keys from mover u
        → IsFoundKey pool.now s word keys.now.keys from mover u o)) }
    ensures refused { IfErr result (λ fault. InAnySteps pool.now (length words.old) plan.now words.new (λ s word.
        HasKeyFrom pool.now s word keys.now.keys from mover u → fault ≡ WordFault.NoMemory)) }
    ensures grows { GrowsTo words.old words.new }
{
    pool.laws();
    demands_are_edges();
    keys_stand_for_visits();
    limits_tell();
    let _ = words.len();
    let Some(place) = plan.place_of(u.id) else {
        return Ok(None);
    };
    let key = key_of_use(alloc, pool, words, plan, place, from, mover, u)?;
    Ok(place_among(keys, key))
}

/// Adds a link.
fn push_link(links: &mut Vec<Link>, link: Link) -> Result<(), ApplyFault>
    ensures ok { OnOk result (links.new.items ≡ links.old.items ++ link ∷ []) }
    ensures refused { IfErr result (λ fault. fault ≡ ApplyFault.NoMemory) }
{
    if links.push(link).is_err() {
        return Err(ApplyFault::NoMemory);
    }
    Ok(())
}

/// Adds the link to the key of a use that the visits of another key ask for.
fn link_use(
    alloc: Global,
    pool: &Pool,
    words: &mut Words,
    plan: &Plan,
    keys: &IndexSet<Key>,
    from: Key,
    mover: Mover,
    u: UseOf,
    links: &mut Vec<Link>,
) -> Result<(), ApplyFault>
    requires places { HasPlaces pool.now (length words.old) }
    requires held { All (IsHeldKey pool.now (length words.old)) keys.now.keys }
    requires from { place_here from < length words.old }
    requires mover { IsHeldMover (length words.old) mover }
    requires id { u.id.0 < length pool.now }
    requires own { u.place.0 < length words.old }
    requires planned { Contains (ids_of plan.now.nodes) from.id.0 }
    ensures links { OnOk result (InAnySteps pool.now (length words.old) plan.now words.new (λ s word.
        IsDemanded pool.now s word from mover u → HasKeyFrom pool.now s word keys.now.keys from mover u
        → (l : SpecLink) × (links.new.items ≡ links.old.items ++ l ∷ [])
        × IsLinkTo pool.now s word keys.now.keys from mover u l)) }
    ensures placed { OnOk result ((n : ℕ) → u.place.0 < n → All (λ l. l.place.0 < n) links.old.items
        → All (λ l. l.place.0 < n) links.new.items) }
    ensures refused { IfErr result (λ fault. InAnySteps pool.now (length words.old) plan.now words.new (λ s word.
        HasKeyFrom pool.now s word keys.now.keys from mover u → fault ≡ ApplyFault.NoMemory)) }
    ensures grows { GrowsTo words.old words.new }
{
    let found = find_key(alloc, pool, words, plan, keys, from, mover, u)?;
    match found {
        None => Ok(()),
        Some(key) => {
            let link = Link {
                turn: u.turn,
                place: u.place,
                key,
            };
            push_link(links, link)
        }
    }
}

/// The links to the keys of all that the visits of a key ask for.
fn links_of(
    alloc: Global,
    pool: &Pool,
    words: &mut Words,
    plan: &Plan,
    keys: &IndexSet<Key>,
    from: Key,
    asked: &Asked,
) -> Result<Vec<Link>, ApplyFault>
    requires places { HasPlaces pool.now (length words.old) }
    requires held { All (IsHeldKey pool.now (length words.old)) keys.now.keys }
    requires from { place_here from < length words.old }
    requires asked { IsHeldAsked pool.now (length words.old) asked.now }
    requires planned { Contains (ids_of plan.now.nodes) from.id.0 }
    ensures links { IfOk result (λ links. InAnySteps pool.now (length words.old) plan.now words.new (λ s word.
        HaveKeysFrom pool.now s word keys.now.keys from asked.now.mover asked.now.uses.items
        → AreLinksTo pool.now s word keys.now.keys from asked.now.mover asked.now.uses.items links.items)) }
    ensures placed { IfOk result (λ links. All (λ l. l.place.0 < length words.new) links.items) }
    ensures refused { IfErr result (λ fault. InAnySteps pool.now (length words.old) plan.now words.new (λ s word.
        HaveKeysFrom pool.now s word keys.now.keys from asked.now.mover asked.now.uses.items
        → fault ≡ ApplyFault.NoMemory)) }
    ensures grows { GrowsTo words.old words.new }
{
    let _ = words.len();
    let mut links = Vec::new(alloc);
    for i in 0..asked.uses.len() {
        let u = asked_at(asked, i);
        link_use(
            alloc,
            pool,
            words,
            plan,
            keys,
            from,
            asked.mover,
            u,
            &mut links,
        )?;
    }
    Ok(links)
}

/// The visits of a key, whose node stands at a place.
fn visit_of(
    alloc: Global,
    pool: &Pool,
    words: &mut Words,
    plan: &Plan,
    keys: &IndexSet<Key>,
    at: usize,
    key: Key,
) -> Result<Visit, ApplyFault>
    requires table { HasTable pool.now (length words.old) plan.now }
    requires places { HasPlaces pool.now (length words.old) }
    requires held { All (IsHeldKey pool.now (length words.old)) keys.now.keys }
    requires once { IsDistinct keys.now.keys }
    requires at { slice_get (ids_of plan.now.nodes) at ≡ Some key.id.0 }
    requires key { IsHeldKey pool.now (length words.old) key }
    ensures id { IfOk result (λ v. v.id ≡ key.id) }
    ensures placed { IfOk result (IsPlacedVisit (length words.new)) }
    ensures visit { IfOk result (λ v. InAnySteps pool.now (length words.old) plan.now words.new (λ s word.
        (i : ℕ) → IsAskedBefore pool.now s word keys.now.keys i key → IsVisitOf s word pool.now keys.now.keys key i v)) }
    ensures refused { IfErr result (λ fault. InAnySteps pool.now (length words.old) plan.now words.new (λ s word.
        (i : ℕ) → IsAskedBefore pool.now s word keys.now.keys i key → fault ≡ ApplyFault.NoMemory)) }
    ensures grows { GrowsTo words.old words.new }
{
    pool.laws();
    let asked = asked_of(alloc, pool, words, plan, at, key)?;
    let links = links_of(alloc, pool, words, plan, keys, key, &asked)?;
    Ok(Visit {
        id: key.id,
        outcome: asked.outcome,
        mover: asked.mover,
        links,
    })
}

/// A key, these being counted from 0.
fn key_in(keys: &IndexSet<Key>, i: usize) -> Key
    requires { i < length keys.now.keys }
    ensures { slice_get keys.now.keys i ≡ Some result }
{
    keys[i]
}

/// The place of a node of a plan.
fn place_in(plan: &Plan, id: NodeId) -> usize
    requires { Contains (ids_of plan.now.nodes) id.0 }
    ensures { slice_get (ids_of plan.now.nodes) result ≡ Some id.0 }
{
    match plan.place_of(id) {
        Some(at) => at,
        None => 0,
    }
}

/// Adds a visit.
fn push_visit(visits: &mut Vec<Visit>, visit: Visit) -> Result<(), ApplyFault>
    ensures ok { OnOk result (visits.new.items ≡ visits.old.items ++ visit ∷ []) }
    ensures refused { IfErr result (λ fault. fault ≡ ApplyFault.NoMemory) }
{
    if visits.push(visit).is_err() {
        return Err(ApplyFault::NoMemory);
    }
    Ok(())
}

/// The visits of all keys.
pub(crate) fn visits_of(
    alloc: Global,
    pool: &Pool,
    words: &mut Words,
    plan: &Plan,
    keys: &IndexSet<Key>,
) -> Result<Vec<Visit>, ApplyFault>
    requires table { HasTable pool.now (length words.old) plan.now }
    requires places { HasPlaces pool.now (length words.old) }
    requires held { All (IsHeldKey pool.now (length words.old)) keys.now.keys }
    requires once { IsDistinct keys.now.keys }
    requires planned { All (λ k. Contains (ids_of plan.now.nodes) k.id.0) keys.now.keys }
    ensures derivation { IfOk result (λ visits. InAnySteps pool.now (length words.old) plan.now words.new (λ s word.
        AreBottomUp pool.now s word keys.now.keys → IsDerivation s word pool.now keys.now.keys visits.items)) }
    ensures long { IfOk result (λ visits. length visits.items ≡ length keys.now.keys) }
    ensures held { IfOk result (λ visits. AreVisitsHeld pool.now visits.items) }
    ensures placed { IfOk result (λ visits. ArePlaced (length words.new) visits.items) }
    ensures refused { IfErr result (λ fault. InAnySteps pool.now (length words.old) plan.now words.new (λ s word.
        AreBottomUp pool.now s word keys.now.keys → fault ≡ ApplyFault.NoMemory)) }
    ensures grows { GrowsTo words.old words.new }
{
    let _ = words.len();
    let mut visits = Vec::new(alloc);
    for i in 0..keys.len() {
        let key = key_in(keys, i);
        let at = place_in(plan, key.id);
        let visit = visit_of(alloc, pool, words, plan, keys, at, key)?;
        push_visit(&mut visits, visit)?;
    }
    Ok(visits)
}
