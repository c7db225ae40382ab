//! The keys of a step, from the root down.
ghost use Rattle.std.specs.Prelude.{◌≡◌, ◌<◌, ◌≤◌, [], ◌∷◌, ℕ, Contains, IfErr, IfOk, OnOk, Some, length, slice_get};
ghost use Rattle.expansion_laws.specs.Trees.{Use};
ghost use Rattle.expansion_laws.specs.Keys.{IsKeyOfStep};
ghost use Rattle.shape_pool.specs.Rows.{tree_at, use_by, HasPlaces};
ghost use Rattle.requests.specs.Numbered.{Table};
ghost use Rattle.requests.specs.Plans.{ids_of};
ghost use Rattle.key_results.specs.declared.fault.ApplyFault.{ApplyFault};
ghost use Rattle.key_results.specs.declared.key.Key.{Key as SpecKey};
ghost use Rattle.key_results.specs.Words.{GrowsTo, IsHeldMover};
ghost use Rattle.key_results.specs.Memos.{key_by, IsHeldKey};
ghost use Rattle.reshape.specs.Readings.{HasTable, InAnySteps, InRootSteps, IsCarriedOut};
ghost use Rattle.reshape.specs.Collecting.{keys_at, AreCollectedFrom, AreFound, AreOfStep, HasAsked, HasRoot};
ghost use Rattle.reshape.specs.Collecting.{IsCollected, IsDemanded, IsKeysDue};

use crate::asked::{asked_at, asked_of};
use crate::found::{Found, none_found, note};
use crate::keying::{key_of_root, key_of_use};
use expansion_laws::laws::{demands_are_edges, keys_stand_for_visits};
use key_results::{ApplyFault, Key, Mover};
use location_words::Words;
use requests::Plan;
use shape_pool::{Pool, UseOf};
use std::alloc::Global;

/// Finds the key of a use that the visits of another key ask for under a mover.
fn collect_use(
    alloc: Global,
    pool: &Pool,
    words: &mut Words,
    plan: &Plan,
    from: Key,
    mover: Mover,
    u: UseOf,
    found: &mut Found,
) -> Result<(), ApplyFault>
    requires places { HasPlaces pool.now (length words.old) }
    requires from { IsHeldKey pool.now (length words.old) from }
    requires mover { IsHeldMover (length words.old) mover }
    requires id { u.id.0 < length pool.now }
    requires own { u.place.0 < length words.old }
    requires planned { Contains (ids_of plan.now.nodes) from.id.0 }
    requires found { AreFound pool.now (length words.old) plan.now.nodes
        found.old.keys.keys found.old.at.items found.old.worded }
    ensures found { OnOk result (AreFound pool.now (length words.new) plan.now.nodes
        found.new.keys.keys found.new.at.items found.new.worded) }
    ensures more { OnOk result ((k : SpecKey) → Contains found.old.keys.keys k → Contains found.new.keys.keys k) }
    ensures collects { OnOk result (InAnySteps pool.now (length words.old) plan.now words.new (λ s word.
        IsDemanded pool.now s word from mover u → IsCollected pool.now s word plan.now.nodes from mover (u ∷ [])
        found.old.keys.keys found.old.at.items found.new.keys.keys found.new.at.items)) }
    ensures refused { IfErr result (λ fault. InAnySteps pool.now (length words.old) plan.now words.new (λ s word.
        IsDemanded pool.now s word from mover u → (root : Use) → AreOfStep pool.now s word root found.old.keys.keys
        → IsKeyOfStep s root (key_by word pool.now from) → IsKeysDue s root fault)) }
    ensures grows { GrowsTo words.old words.new }
{
    pool.laws();
    demands_are_edges();
    keys_stand_for_visits();
    let _ = words.len();
    let Some(place) = plan.place_of(u.id) else {
        return Ok(());
    };
    let key = key_of_use(alloc, pool, words, plan, place, from, mover, u)?;
    note(found, place, key)?;
    Ok(())
}

/// Finds the keys of what the visits of a key ask for, whose node stands at a place.
fn collect_from(
    alloc: Global,
    pool: &Pool,
    words: &mut Words,
    plan: &Plan,
    at: usize,
    key: Key,
    found: &mut Found,
) -> Result<(), ApplyFault>
    requires table { HasTable pool.now (length words.old) plan.now }
    requires places { HasPlaces pool.now (length words.old) }
    requires at { slice_get (ids_of plan.now.nodes) at ≡ Some key.id.0 }
    requires key { Contains found.old.keys.keys key }
    requires found { AreFound pool.now (length words.old) plan.now.nodes
        found.old.keys.keys found.old.at.items found.old.worded }
    ensures found { OnOk result (AreFound pool.now (length words.new) plan.now.nodes
        found.new.keys.keys found.new.at.items found.new.worded) }
    ensures more { OnOk result ((k : SpecKey) → Contains found.old.keys.keys k → Contains found.new.keys.keys k) }
    ensures later { OnOk result ((q : ℕ) → at ≤ q → keys_at found.new.at.items q ≡ keys_at found.old.at.items q) }
    ensures has { OnOk result (InAnySteps pool.now (length words.old) plan.now words.new (λ s word.
        HasAsked pool.now s word found.new.keys.keys key)) }
    ensures sound { OnOk result (InAnySteps pool.now (length words.old) plan.now words.new (λ s word.
        (root : Use) → AreOfStep pool.now s word root found.old.keys.keys
        → AreOfStep pool.now s word root found.new.keys.keys)) }
    ensures refused { IfErr result (λ fault. InAnySteps pool.now (length words.old) plan.now words.new (λ s word.
        (root : Use) → AreOfStep pool.now s word root found.old.keys.keys → IsKeysDue s root fault)) }
    ensures grows { GrowsTo words.old words.new }
{
    pool.laws();
    let asked = asked_of(alloc, pool, words, plan, at, key)?;
    for i in 0..asked.uses.len() {
        let u = asked_at(&asked, i);
        collect_use(alloc, pool, words, plan, key, asked.mover, u, found)?;
    }
    Ok(())
}

/// How many keys were found at a place.
fn count_at(found: &Found, at: usize) -> usize
    requires { at < length found.now.at.items }
    ensures { result ≡ length (keys_at found.now.at.items at) }
{
    found.at[at].len()
}

/// A key that was found at a place, these being counted from 0.
fn key_at(found: &Found, at: usize, i: usize) -> Key
    requires at { at < length found.now.at.items }
    requires i { i < length (keys_at found.now.at.items at) }
    ensures { slice_get (keys_at found.now.at.items at) i ≡ Some result }
{
    found.at[at][i]
}

/// Finds the keys of what the visits of the node at a place ask for.
fn collect_at(
    alloc: Global,
    pool: &Pool,
    words: &mut Words,
    plan: &Plan,
    at: usize,
    found: &mut Found,
) -> Result<(), ApplyFault>
    requires table { HasTable pool.now (length words.old) plan.now }
    requires places { HasPlaces pool.now (length words.old) }
    requires at { at < length plan.now.nodes }
    requires found { AreFound pool.now (length words.old) plan.now.nodes
        found.old.keys.keys found.old.at.items found.old.worded }
    ensures found { OnOk result (AreFound pool.now (length words.new) plan.now.nodes
        found.new.keys.keys found.new.at.items found.new.worded) }
    ensures more { OnOk result ((k : SpecKey) → Contains found.old.keys.keys k → Contains found.new.keys.keys k) }
    ensures later { OnOk result ((q : ℕ) → at ≤ q → keys_at found.new.at.items q ≡ keys_at found.old.at.items q) }
    ensures has { OnOk result (InAnySteps pool.now (length words.old) plan.now words.new (λ s word.
        (k : SpecKey) → Contains (keys_at found.new.at.items at) k → HasAsked pool.now s word found.new.keys.keys k)) }
    ensures sound { OnOk result (InAnySteps pool.now (length words.old) plan.now words.new (λ s word.
        (root : Use) → AreOfStep pool.now s word root found.old.keys.keys
        → AreOfStep pool.now s word root found.new.keys.keys)) }
    ensures refused { IfErr result (λ fault. InAnySteps pool.now (length words.old) plan.now words.new (λ s word.
        (root : Use) → AreOfStep pool.now s word root found.old.keys.keys → IsKeysDue s root fault)) }
    ensures grows { GrowsTo words.old words.new }
{
    let _ = words.len();
    for i in 0..count_at(found, at) {
        let key = key_at(found, at, i);
        collect_from(alloc, pool, words, plan, at, key, found)?;
    }
    Ok(())
}

/// Finds the key of the root's visit, where no key was found yet.
fn note_root(
    pool: &Pool,
    words: &Words,
    plan: &Plan,
    root: UseOf,
    found: &mut Found,
) -> Result<(), ApplyFault>
    requires root { root.id.0 < length pool.now }
    requires place { root.place.0 < length words.now }
    requires places { HasPlaces pool.now (length words.now) }
    requires keys { found.old.keys.keys ≡ [] }
    requires long { length found.old.at.items ≡ length plan.now.nodes }
    requires none { (p : ℕ) → keys_at found.old.at.items p ≡ [] }
    requires worded { found.old.worded ≡ 0 }
    ensures found { OnOk result (AreFound pool.now (length words.now) plan.now.nodes
        found.new.keys.keys found.new.at.items found.new.worded) }
    ensures first { OnOk result (InRootSteps pool.now (length words.now) root.id.0 plan.now words.now (λ s word.
        AreCollectedFrom pool.now s word (use_by word (tree_at word pool.now) root)
        found.new.keys.keys found.new.at.items (length plan.now.nodes))) }
    ensures refused { IfErr result (λ fault. fault ≡ ApplyFault.NoMemory) }
{
    pool.laws();
    let _ = words.len();
    let Some(at) = plan.place_of(root.id) else {
        return Ok(());
    };
    let key = key_of_root(pool, words, plan, at, root);
    note(found, at, key)?;
    Ok(())
}

/// All keys of a step, from the root down.
pub(crate) fn collect(
    alloc: Global,
    pool: &Pool,
    words: &mut Words,
    plan: &Plan,
    root: UseOf,
) -> Result<Found, ApplyFault>
    requires root { root.id.0 < length pool.now }
    requires place { root.place.0 < length words.old }
    requires places { HasPlaces pool.now (length words.old) }
    requires plan { (t : Table) × IsCarriedOut pool.now (length words.old) root.id.0 plan.now t }
    ensures found { IfOk result (λ found. AreFound pool.now (length words.new) plan.now.nodes
        found.keys.keys found.at.items found.worded) }
    ensures collected { IfOk result (λ found. InRootSteps pool.now (length words.old) root.id.0 plan.now words.new
        (λ s word. AreCollectedFrom pool.now s word (use_by word (tree_at word pool.now) root)
        found.keys.keys found.at.items 0)) }
    ensures refused { IfErr result (λ fault. InRootSteps pool.now (length words.old) root.id.0 plan.now words.new
        (λ s word. IsKeysDue s (use_by word (tree_at word pool.now) root) fault)) }
    ensures grows { GrowsTo words.old words.new }
{
    let _ = words.len();
    let places = plan.len();
    let mut found = none_found(alloc, places)?;
    note_root(pool, words, plan, root, &mut found)?;
    for done in 0..places {
        collect_at(alloc, pool, words, plan, places - 1 - done, &mut found)?;
    }
    Ok(found)
}
