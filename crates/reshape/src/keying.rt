//! The key of a visit, by what a plan tells of its node.
ghost use Rattle.std.specs.Prelude.{◌≡◌, ◌<◌, ℕ, IfErr, IfOk, List, None, Some, length, slice_get, true, if◌then◌else◌};
ghost use Rattle.std.specs.Option.{option_map, option_map_or};
ghost use Rattle.location_words.specs.declared.pair.Pair.{Pair};
ghost use Rattle.location_words.specs.Pairs.{mul as mul_of};
ghost use Rattle.expansion_laws.specs.Contexts.{at_root, inside};
ghost use Rattle.expansion_laws.specs.Keys.{IsKey};
ghost use Rattle.shape_pool.specs.Rows.{tree_at, use_by, HasPlaces};
ghost use Rattle.requests.specs.Plans.{ids_of, PlannedNode};
ghost use Rattle.key_results.specs.Words.{moved_word, GrowsTo, IsDueAt, IsHeldMover, ReadsWords};
ghost use Rattle.key_results.specs.Memos.{key_by, place_here};
ghost use Rattle.reshape.specs.Readings.{InAnySteps};
ghost use Rattle.reshape.specs.Collecting.{IsDueFrom, IsKeyFrom};

use key_results::{Key, Mover, accumulated};
use location_words::laws::words_are_a_group;
use location_words::{WordFault, WordId, Words};
use orientation::{Turn, compose};
use requests::Plan;
use shape_pool::{Pool, UseOf};
use std::alloc::Global;

/// The turn of a key of the node at a place, if it holds one.
fn turn_held(plan: &Plan, at: usize, turn: Turn) -> Option<Turn>
    requires { at < length plan.now.nodes }
    ensures { (p : PlannedNode) → slice_get plan.now.nodes at ≡ Some p → result ≡ (if p.turn then Some turn else None) }
{
    if plan.reaches_turn(at) {
        return Some(turn);
    }
    None
}

/// The word of the key of a use of the node at a place, if it holds one: that of a context, and of the use as a mover
/// moves it.
fn word_held(
    alloc: Global,
    words: &mut Words,
    plan: &Plan,
    at: usize,
    here: WordId,
    mover: Mover,
    own: WordId,
) -> Result<Option<WordId>, WordFault>
    requires at { at < length plan.now.nodes }
    requires here { here.0 < length words.old }
    requires mover { IsHeldMover (length words.old) mover }
    requires own { own.0 < length words.old }
    ensures word { IfOk result (λ o. (p : PlannedNode) (word : ℕ → List Pair) → slice_get plan.now.nodes at ≡ Some p
        → ReadsWords word words.new → option_map (λ w. word w.0) o
        ≡ (if p.place then Some (mul_of (word here.0) (moved_word word mover own.0)) else None)) }
    ensures held { IfOk result (λ o. option_map_or (λ w. w.0) o 0 < length words.new) }
    ensures refused { IfErr result (λ fault. (p : PlannedNode) → slice_get plan.now.nodes at ≡ Some p → (p.place ≡ true)
        × IsDueAt words.new (λ word. mul_of (word here.0) (moved_word word mover own.0)) fault) }
    ensures grows { GrowsTo words.old words.new }
{
    let _ = words.len();
    if !plan.reaches_place(at) {
        return Ok(None);
    }
    let word = accumulated(alloc, words, here, mover, own)?;
    Ok(Some(word))
}

/// The key of the visit of a use of the node at a place, which the visits of another key ask for under a mover.
pub(crate) fn key_of_use(
    alloc: Global,
    pool: &Pool,
    words: &mut Words,
    plan: &Plan,
    at: usize,
    from: Key,
    mover: Mover,
    u: UseOf,
) -> Result<Key, WordFault>
    requires places { HasPlaces pool.now (length words.old) }
    requires at { slice_get (ids_of plan.now.nodes) at ≡ Some u.id.0 }
    requires from { place_here from < length words.old }
    requires mover { IsHeldMover (length words.old) mover }
    requires own { u.place.0 < length words.old }
    ensures key { IfOk result (λ k. InAnySteps pool.now (length words.old) plan.now words.new
        (λ s word. IsKeyFrom pool.now s word from mover u (key_by word pool.now k))) }
    ensures id { IfOk result (λ k. k.id ≡ u.id) }
    ensures held { IfOk result (λ k. place_here k < length words.new) }
    ensures refused { IfErr result (λ fault. InAnySteps pool.now (length words.old) plan.now words.new
        (λ s word. IsDueFrom pool.now s word from mover u fault)) }
    ensures grows { GrowsTo words.old words.new }
{
    let turn = turn_held(plan, at, compose(from.turn_here(), u.turn));
    let word = word_held(alloc, words, plan, at, from.word_here(), mover, u.place)?;
    Ok(Key {
        id: u.id,
        word,
        turn,
    })
}

/// The key of the visit of a root.
pub(crate) fn key_of_root(pool: &Pool, words: &Words, plan: &Plan, at: usize, root: UseOf) -> Key
    requires places { HasPlaces pool.now (length words.now) }
    requires at { slice_get (ids_of plan.now.nodes) at ≡ Some root.id.0 }
    requires place { root.place.0 < length words.now }
    ensures key { InAnySteps pool.now (length words.now) plan.now words.now (λ s word.
        IsKey s (tree_at word pool.now root.id.0) (inside at_root (use_by word (tree_at word pool.now) root))
        (key_by word pool.now result)) }
    ensures id { result.id ≡ root.id }
    ensures held { place_here result < length words.now }
{
    words_are_a_group();
    let _ = words.len();
    let turn = turn_held(plan, at, root.turn);
    let word = place_held(plan, at, root.place);
    Key {
        id: root.id,
        word,
        turn,
    }
}

/// The word of a key of the node at a place, if it holds one.
fn place_held(plan: &Plan, at: usize, place: WordId) -> Option<WordId>
    requires { at < length plan.now.nodes }
    ensures { (p : PlannedNode) → slice_get plan.now.nodes at ≡ Some p → result ≡ (if p.place then Some place else None) }
{
    if plan.reaches_place(at) {
        return Some(place);
    }
    None
}
