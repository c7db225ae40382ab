//! What a visit asks for.
ghost use Rattle.std.specs.Prelude.{◌≡◌, ◌<◌, ℕ, Bool, IfOk, List, None, Some, false, is_some};
ghost use Rattle.std.specs.Prelude.{[], length, map, slice_get, true};
ghost use Rattle.orientation.specs.declared.kind.Kind.{Kind as SpecKind};
ghost use Rattle.orientation.specs.Kinds.{kind_eq};
ghost use Rattle.orientation.specs.Rules.{is_above};
ghost use Rattle.location_words.specs.declared.pair.Pair.{Pair};
ghost use Rattle.location_words.specs.Pairs.{IsWord};
ghost use Rattle.expansion_laws.specs.Contexts.{Context};
ghost use Rattle.expansion_laws.specs.Requests.{Request as TreeRequest, match_of};
ghost use Rattle.expansion_laws.specs.Steps.{Step, is_entered};
ghost use Rattle.shape_pool.specs.declared.node.UseOf.{UseOf as SpecUse};
ghost use Rattle.shape_pool.specs.Rows.{kind_at, tree_at, uses_at, HasPlaces};
ghost use Rattle.requests.specs.Numbered.{ActIsHeldIn};
ghost use Rattle.requests.specs.Plans.{ids_of};
ghost use Rattle.requests.specs.Readings.{act_by, place_by};
ghost use Rattle.key_results.specs.Words.{GrowsTo, IsHeldMover, IsNumberOf, ReadsWords};
ghost use Rattle.key_results.specs.Memos.{context_by, place_here, IsHeldKey};
ghost use Rattle.reshape.specs.Readings.{ActIsPlaced, HasTable, InAnySteps, Reads};
ghost use Rattle.reshape.specs.Asking.{back_word, turned_use, Asks, IsHeldAsked, IsOneUse};

use key_results::{IDENTITY, Key, Mover, Outcome, no_mover, undone};
use location_words::laws::words_are_a_group;
use location_words::{WordId, Words};
use orientation::{Kind, Turn, compose};
use requests::{Act, Plan, tables_stand_for_steps};
use shape_pool::{NodeId, Pool, UseOf};
use std::alloc::{AllocError, Global};

/// What a visit asks for: uses, each under the words of a mover, and what is made of their results.
#[derive(Drop)]
pub(crate) struct Asked {
    pub(crate) outcome: Outcome,
    pub(crate) mover: Mover,
    pub(crate) uses: Vec<UseOf>,
}

/// How many uses a node has.
fn use_count(pool: &Pool, id: NodeId) -> usize
    requires { id.0 < length pool.now }
    ensures { result ≡ length (uses_at pool.now id.0) }
{
    pool.node(id).uses.len()
}

/// A use of a node under a turn, uses being counted from 0.
fn use_under(pool: &Pool, id: NodeId, at: usize, turn: Turn) -> UseOf
    requires id { id.0 < length pool.now }
    requires at { at < length (uses_at pool.now id.0) }
    ensures { (u : SpecUse) → slice_get (uses_at pool.now id.0) at ≡ Some u → result ≡ turned_use turn u }
{
    let one = &pool.node(id).uses[at];
    UseOf {
        turn: compose(turn, one.turn),
        place: one.place,
        id: one.node.id,
    }
}

/// The uses of a node, each under a turn.
fn uses_under(alloc: Global, pool: &Pool, id: NodeId, turn: Turn) -> Result<Vec<UseOf>, AllocError>
    requires { id.0 < length pool.now }
    ensures { IfOk result (λ uses. uses.items ≡ map (turned_use turn) (uses_at pool.now id.0)) }
{
    let mut uses = Vec::new(alloc);
    for i in 0..use_count(pool, id) {
        uses.push(use_under(pool, id, i, turn))?;
    }
    Ok(uses)
}

/// A visit that no request meets: of an entered node the uses are asked for.
fn unmet(alloc: Global, pool: &Pool, id: NodeId, enters: bool) -> Result<Asked, AllocError>
    requires { id.0 < length pool.now }
    ensures asks { IfOk result (λ a. (s : Step) (word : ℕ → List Pair) (here : Context) → word 0 ≡ []
        → ((i : ℕ) → IsWord (word i)) → match_of s.requests (tree_at word pool.now id.0) here ≡ None
        → is_entered s (tree_at word pool.now id.0) ≡ enters → Asks s word pool.now id.0 here a) }
    ensures held { IfOk result (λ a. (n : ℕ) → 0 < n → HasPlaces pool.now n → IsHeldAsked pool.now n a) }
{
    pool.laws();
    words_are_a_group();
    if !enters {
        let uses = Vec::new(alloc);
        return Ok(Asked {
            outcome: Outcome::Stays,
            mover: no_mover(),
            uses,
        });
    }
    let uses = uses_under(alloc, pool, id, Turn::Forward)?;
    Ok(Asked {
        outcome: Outcome::Rebuilt,
        mover: no_mover(),
        uses,
    })
}

/// Whether two kinds are one.
fn same_kind(a: Kind, b: Kind) -> bool
    ensures { result ≡ kind_eq a b }
{
    (a as u8) == (b as u8)
}

/// The uses that go on after a replace: the one that takes the place, or those of its node where its kind is another.
fn onward(alloc: Global, pool: &Pool, id: NodeId, by: UseOf) -> Result<Vec<UseOf>, AllocError>
    requires id { id.0 < length pool.now }
    requires by { by.id.0 < length pool.now }
    ensures one { IfOk result (λ uses. kind_eq (kind_at pool.now id.0) (kind_at pool.now by.id.0) ≡ true
        → IsOneUse by uses.items) }
    ensures each { IfOk result (λ uses. kind_eq (kind_at pool.now id.0) (kind_at pool.now by.id.0) ≡ false
        → uses.items ≡ map (turned_use by.turn) (uses_at pool.now by.id.0)) }
{
    if !same_kind(pool.kind(id), pool.kind(by.id)) {
        let uses = uses_under(alloc, pool, by.id, by.turn)?;
        return Ok(uses);
    }
    let mut uses = Vec::new(alloc);
    uses.push(UseOf {
        turn: by.turn,
        place: IDENTITY,
        id: by.id,
    })?;
    Ok(uses)
}

/// The words that move what a replace brings: under a place that of the context is undone first.
fn mover_of(
    words: &mut Words,
    key: Key,
    place: Option<WordId>,
    by: WordId,
) -> Result<Mover, AllocError>
    requires here { place_here key < length words.old }
    requires by { by.0 < length words.old }
    ensures back { IfOk result (λ m. IsNumberOf words.new m.back.0 (λ word. back_word word (place_here key) (is_some place))) }
    ensures by { IfOk result (λ m. m.by ≡ by) }
    ensures grows { GrowsTo words.old words.new }
{
    let _ = words.len();
    let back = match place {
        None => IDENTITY,
        Some(_) => undone(words, key.word_here())?,
    };
    Ok(Mover { back, by })
}

/// A visit that meets a request.
fn met(
    alloc: Global,
    pool: &Pool,
    words: &mut Words,
    key: Key,
    place: Option<WordId>,
    act: Act,
) -> Result<Asked, AllocError>
    requires key { IsHeldKey pool.now (length words.old) key }
    requires act { ActIsHeldIn pool.now act }
    requires placed { ActIsPlaced (length words.old) act }
    ensures asks { IfOk result (λ a. (s : Step) (kind : ℕ → SpecKind) (word : ℕ → List Pair) (r : TreeRequest)
        → Reads pool.now words.new kind word → s.kind_of_origin ≡ kind
        → match_of s.requests (tree_at word pool.now key.id.0) (context_by word key) ≡ Some r
        → r.place ≡ place_by word place → r.act ≡ act_by word pool.now act
        → Asks s word pool.now key.id.0 (context_by word key) a) }
    ensures held { IfOk result (λ a. HasPlaces pool.now (length words.old) → IsHeldAsked pool.now (length words.new) a) }
    ensures grows { GrowsTo words.old words.new }
{
    pool.laws();
    words_are_a_group();
    let _ = words.len();
    match act {
        Act::Remove => {
            let uses = Vec::new(alloc);
            Ok(Asked {
                outcome: Outcome::Joined,
                mover: no_mover(),
                uses,
            })
        }
        Act::Replace(by) => {
            let mover = mover_of(words, key, place, by.place)?;
            let uses = onward(alloc, pool, key.id, by)?;
            Ok(Asked {
                outcome: Outcome::Joined,
                mover,
                uses,
            })
        }
    }
}

/// A use that is asked for, these being counted from 0.
pub(crate) fn asked_at(asked: &Asked, i: usize) -> UseOf
    requires { i < length asked.now.uses.items }
    ensures { slice_get asked.now.uses.items i ≡ Some result }
{
    asked.uses[i]
}

/// Whether a node that no request meets is entered.
fn enters(pool: &Pool, plan: &Plan, id: NodeId) -> bool
    requires { id.0 < length pool.now }
    ensures { result ≡ is_above plan.now.rule.stop (kind_at pool.now id.0) }
{
    plan.rule().enters(pool.kind(id))
}

/// What the visits of a key ask for, whose node stands at a place of the plan.
pub(crate) fn asked_of(
    alloc: Global,
    pool: &Pool,
    words: &mut Words,
    plan: &Plan,
    at: usize,
    key: Key,
) -> Result<Asked, AllocError>
    requires plan { HasTable pool.now (length words.old) plan.now }
    requires places { HasPlaces pool.now (length words.old) }
    requires at { slice_get (ids_of plan.now.nodes) at ≡ Some key.id.0 }
    requires key { IsHeldKey pool.now (length words.old) key }
    ensures asks { IfOk result (λ a. InAnySteps pool.now (length words.old) plan.now words.new
        (λ s word. Asks s word pool.now key.id.0 (context_by word key) a)) }
    ensures held { IfOk result (IsHeldAsked pool.now (length words.new)) }
    ensures grows { GrowsTo words.old words.new }
{
    pool.laws();
    tables_stand_for_steps(pool);
    let _ = words.len();
    match plan.find(at, key.turn_here(), key.word_here()) {
        None => {
            let asked = unmet(alloc, pool, key.id, enters(pool, plan, key.id))?;
            Ok(asked)
        }
        Some(r) => {
            let asked = met(alloc, pool, words, key, r.place, r.act)?;
            Ok(asked)
        }
    }
}
