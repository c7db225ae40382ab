//! The keys of a step in an order in which each comes after those of what its visits ask for.
ghost use Rattle.std.specs.Prelude.{◌≡◌, ◌<◌, All, Contains, IfErr, IfOk, length};
ghost use Rattle.lists.specs.Distinct.{IsDistinct};
ghost use Rattle.shape_pool.specs.Rows.{tree_at, use_by, HasPlaces};
ghost use Rattle.requests.specs.Numbered.{Table};
ghost use Rattle.requests.specs.Plans.{ids_of};
ghost use Rattle.key_results.specs.Words.{GrowsTo};
ghost use Rattle.key_results.specs.Memos.{IsHeldKey};
ghost use Rattle.reshape.specs.Readings.{InRootSteps, IsCarriedOut};
ghost use Rattle.reshape.specs.Collecting.{keys_at, AreInOrder, AreKeysOf, IsKeysDue};

use crate::collect::collect;
use crate::found::Found;
use crate::memo::{add_keys, none_yet};
use expansion_laws::laws::{demands_are_edges, keys_stand_for_visits};
use indexmap::IndexSet;
use key_results::{ApplyFault, Key};
use location_words::Words;
use location_words::laws::limits_tell;
use requests::Plan;
use shape_pool::{Pool, UseOf};
use std::alloc::{AllocError, Global};

/// The keys that were found at a place.
fn found_at(found: &Found, p: usize) -> &[Key]
    requires { p < length found.now.at.items }
    ensures { result.now ≡ keys_at found.now.at.items p }
{
    found.at[p].as_slice()
}

/// The keys that were found, in the order of their places.
fn in_order(alloc: Global, found: &Found) -> Result<IndexSet<Key>, AllocError>
    ensures { IfOk result (λ keys. AreInOrder found.now.at.items keys.keys) }
{
    let mut keys = none_yet(alloc);
    for p in 0..found.at.len() {
        add_keys(&mut keys, found_at(found, p))?;
    }
    Ok(keys)
}

/// All keys of a step, each after those of what its visits ask for. The root's key is the last.
pub(crate) fn keys_of(
    alloc: Global,
    pool: &Pool,
    words: &mut Words,
    plan: &Plan,
    root: UseOf,
) -> Result<IndexSet<Key>, ApplyFault>
    requires root { root.id.0 < length pool.now }
    requires place { root.place.0 < length words.old }
    requires places { HasPlaces pool.now (length words.old) }
    requires plan { (t : Table) × IsCarriedOut pool.now (length words.old) root.id.0 plan.now t }
    ensures keys { IfOk result (λ keys. InRootSteps pool.now (length words.old) root.id.0 plan.now words.new (λ s word.
        AreKeysOf pool.now s word (use_by word (tree_at word pool.now) root) keys.keys)) }
    ensures held { IfOk result (λ keys. All (IsHeldKey pool.now (length words.new)) keys.keys) }
    ensures once { IfOk result (λ keys. IsDistinct keys.keys) }
    ensures planned { IfOk result (λ keys. All (λ k. Contains (ids_of plan.now.nodes) k.id.0) keys.keys) }
    ensures refused { IfErr result (λ fault. InRootSteps pool.now (length words.old) root.id.0 plan.now words.new
        (λ s word. IsKeysDue s (use_by word (tree_at word pool.now) root) fault)) }
    ensures grows { GrowsTo words.old words.new }
{
    pool.laws();
    demands_are_edges();
    keys_stand_for_visits();
    limits_tell();
    let found = collect(alloc, pool, words, plan, root)?;
    let keys = in_order(alloc, &found)?;
    Ok(keys)
}
