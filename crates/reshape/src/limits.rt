//! The limits of a step past its keys and words.
ghost use Rattle.std.specs.Prelude.{◌≡◌, ◌<◌, ◌≤◌, ◌+◌, ◌^◌, [], ℕ, All, IfErr, IfOk, List, OnOk, Some, length, map, nat_eq, slice_get};
ghost use Rattle.location_words.specs.declared.pair.Pair.{Pair};
ghost use Rattle.shape_pool.specs.Rows.{most_depth, tree_at};
ghost use Rattle.key_results.specs.declared.fault.ApplyFault.{ApplyFault};
ghost use Rattle.key_results.specs.declared.fault.LimitKind.{LimitKind};
ghost use Rattle.key_results.specs.declared.weighing.Weight.{Weight};
ghost use Rattle.key_results.specs.Derivations.{results_of, sizes_from, AreLinked, AreVisitsHeld};
ghost use Rattle.key_results.specs.Weights.{weight};
ghost use Rattle.reshape.specs.Limits.{most_uses, root_depth, IsPastUses};

use key_results::{ApplyFault, LimitKind, Visit, Weights, limit, weigh};
use shape_pool::Pool;
use std::alloc::Global;

/// The greatest number of uses of a step.
const MOST_USES: u128 = 33_554_432;

/// The greatest depth of a tree.
const MOST_DEPTH: u128 = 512;

/// What all keys weigh, where the uses that they bring aren't too many.
pub(crate) fn weights_within(
    alloc: Global,
    pool: &Pool,
    prune: bool,
    visits: &[Visit],
) -> Result<Weights, ApplyFault>
    requires linked { AreLinked visits.now }
    requires held { AreVisitsHeld pool.now visits.now }
    ensures weights { IfOk result (λ w. (word : ℕ → List Pair)
        → w.of_keys.items ≡ map weight (results_of word (tree_at word pool.now) prune visits.now)) }
    ensures deep { IfOk result (λ w. All (λ v. v.depth ≤ 512 + length visits.now) w.of_keys.items) }
    ensures within { IfOk result (λ w. (word : ℕ → List Pair)
        → sizes_from word (tree_at word pool.now) prune [] visits.now ≤ most_uses) }
    ensures refused { IfErr result (λ fault. (word : ℕ → List Pair)
        → IsPastUses (sizes_from word (tree_at word pool.now) prune [] visits.now) fault) }
{
    let weights = weigh(alloc, pool, prune, visits)?;
    let uses = weights.uses;
    if uses > MOST_USES {
        return Err(limit(LimitKind::Uses, uses));
    }
    Ok(weights)
}

/// The depth of the deepest tree of the results of a key.
fn depth_at(weights: &Weights, key: usize) -> u128
    requires { key < length weights.now.of_keys.items }
    ensures { (w : Weight) → slice_get weights.now.of_keys.items key ≡ Some w → result ≡ w.depth }
{
    weights.of_keys[key].depth
}

/// Whether there is one result.
fn is_one(results: usize) -> bool
    ensures { result ≡ nat_eq results 1 }
{
    results == 1
}

/// The depth of the new root over so many results of a key.
fn depth_over(weights: &Weights, key: usize, results: usize) -> u128
    requires key { key < length weights.now.of_keys.items }
    requires deep { All (λ w. w.depth < 2 ^ 127) weights.now.of_keys.items }
    ensures { (w : Weight) → slice_get weights.now.of_keys.items key ≡ Some w → result ≡ root_depth results w.depth }
{
    let below = depth_at(weights, key);
    if is_one(results) {
        return below;
    }
    below + 1
}

/// Tests the depth of the new root over so many results of a key.
pub(crate) fn within_depth(weights: &Weights, key: usize, results: usize) -> Result<(), ApplyFault>
    requires key { key < length weights.now.of_keys.items }
    requires deep { All (λ w. w.depth < 2 ^ 127) weights.now.of_keys.items }
    ensures within { OnOk result ((w : Weight) → slice_get weights.now.of_keys.items key ≡ Some w
        → root_depth results w.depth ≤ most_depth) }
    ensures refused { IfErr result (λ fault. (w : Weight) → slice_get weights.now.of_keys.items key ≡ Some w
        → (fault ≡ ApplyFault.Limit LimitKind.Depth (root_depth results w.depth))
        × (most_depth < root_depth results w.depth)) }
{
    let depth = depth_over(weights, key, results);
    if depth > MOST_DEPTH {
        return Err(limit(LimitKind::Depth, depth));
    }
    Ok(())
}
