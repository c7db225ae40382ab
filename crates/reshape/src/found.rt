//! Keys that were found, and those of each node.
ghost use Rattle.std.specs.Prelude.{◌≡◌, ◌≢◌, ◌<◌, ◌≤◌, ◌+◌, ◌∷◌, ◌++◌, [], ℕ, Contains, IfErr, IfOk, OnOk, false, is_some, length, suc, true};
ghost use Rattle.key_results.specs.declared.fault.ApplyFault.{ApplyFault};
ghost use Rattle.key_results.specs.declared.fault.LimitKind.{LimitKind};
ghost use Rattle.reshape.specs.Limits.{most_keys};
ghost use Rattle.reshape.specs.Collecting.{keys_at, worded, IsDueKey, IsNoted};

use crate::memo::{add_key, is_among};
use indexmap::IndexSet;
use key_results::{ApplyFault, Key, LimitKind, limit};
use std::alloc::{AllocError, Global};

/// The greatest number of keys that hold a word.
const MOST_KEYS: usize = 1_048_576;

/// Keys that were found, and those of the node at each place of the plan.
#[derive(Drop)]
pub(crate) struct Found {
    pub(crate) keys: IndexSet<Key>,
    pub(crate) at: Vec<Vec<Key>>,
    pub(crate) worded: usize,
}

/// No keys.
fn no_key(alloc: Global) -> Vec<Key>
    ensures { result.items ≡ [] }
{
    Vec::new(alloc)
}

/// No keys at each of so many places.
fn no_keys(alloc: Global, places: usize) -> Result<Vec<Vec<Key>>, AllocError>
    ensures long { IfOk result (λ at. length at.items ≡ places) }
    ensures none { IfOk result (λ at. (p : ℕ) → keys_at at.items p ≡ []) }
{
    let mut at = Vec::new(alloc);
    for done in 0..places {
        at.push(no_key(alloc))?;
    }
    Ok(at)
}

/// No keys, over so many places.
pub(crate) fn none_found(alloc: Global, places: usize) -> Result<Found, AllocError>
    ensures keys { IfOk result (λ found. found.keys.keys ≡ []) }
    ensures long { IfOk result (λ found. length found.at.items ≡ places) }
    ensures none { IfOk result (λ found. (p : ℕ) → keys_at found.at.items p ≡ []) }
    ensures worded { IfOk result (λ found. found.worded ≡ 0) }
{
    Ok(Found {
        keys: IndexSet::new(alloc),
        at: no_keys(alloc, places)?,
        worded: 0,
    })
}

/// Adds a key to those of a place.
fn push_at(at: &mut Vec<Vec<Key>>, place: usize, key: Key) -> Result<(), AllocError>
    requires { place < length at.old.items }
    ensures long { OnOk result (length at.new.items ≡ length at.old.items) }
    ensures others { OnOk result ((q : ℕ) → q ≢ place → keys_at at.new.items q ≡ keys_at at.old.items q) }
    ensures own { OnOk result (keys_at at.new.items place ≡ keys_at at.old.items place ++ key ∷ []) }
{
    at[place].push(key)?;
    Ok(())
}

/// Holds a key that wasn't found before, among all and at its place.
fn hold(
    keys: &mut IndexSet<Key>,
    at: &mut Vec<Vec<Key>>,
    place: usize,
    key: Key,
) -> Result<(), AllocError>
    requires place { place < length at.old.items }
    requires new { ¬ Contains keys.old.keys key }
    ensures { OnOk result (IsNoted place key keys.old.keys at.old.items keys.new.keys at.new.items) }
{
    add_key(keys, key)?;
    push_at(at, place, key)?;
    Ok(())
}

/// The number of keys that hold a word, with one key more.
fn counted_with(key: Key, count: usize) -> Result<usize, ApplyFault>
    requires { count ≤ most_keys }
    ensures with_word { IfOk result (λ n. is_some key.word ≡ true → n ≡ count + 1) }
    ensures without { IfOk result (λ n. is_some key.word ≡ false → n ≡ count) }
    ensures few { IfOk result (λ n. n ≤ most_keys) }
    ensures refused { IfErr result (λ fault. (fault ≡ ApplyFault.Limit LimitKind.Keys (suc most_keys))
        × (is_some key.word ≡ true) × (count ≡ most_keys)) }
{
    if key.word.is_none() {
        return Ok(count);
    }
    if count == MOST_KEYS {
        return Err(limit(LimitKind::Keys, MOST_KEYS as u128 + 1));
    }
    Ok(count + 1)
}

/// Finds a key of the node at a place.
pub(crate) fn note(found: &mut Found, place: usize, key: Key) -> Result<(), ApplyFault>
    requires place { place < length found.old.at.items }
    requires counted { found.old.worded ≡ worded found.old.keys.keys }
    requires few { found.old.worded ≤ most_keys }
    ensures noted { OnOk result (IsNoted place key found.old.keys.keys found.old.at.items
        found.new.keys.keys found.new.at.items) }
    ensures counted { OnOk result (found.new.worded ≡ worded found.new.keys.keys) }
    ensures few { OnOk result (found.new.worded ≤ most_keys) }
    ensures refused { IfErr result (IsDueKey key found.old.keys.keys found.old.worded) }
{
    if is_among(&found.keys, key) {
        return Ok(());
    }
    let count = counted_with(key, found.worded)?;
    hold(&mut found.keys, &mut found.at, place, key)?;
    found.worded = count;
    Ok(())
}
