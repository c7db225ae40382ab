//! How many relative results each key has, and how deep their trees are.
ghost use Rattle.std.specs.Prelude.{◌≡◌, ◌<◌, ◌≤◌, ◌+◌, ◌^◌, ◌&&◌, not, ℕ, All, Bool, IfOk, List};
ghost use Rattle.std.specs.Prelude.{[], length, map, max, min};
ghost use Rattle.lists.specs.Sameness.{is_empty};
ghost use Rattle.location_words.specs.declared.pair.Pair.{Pair};
ghost use Rattle.expansion_laws.specs.Trees.{Tree, Use};
ghost use Rattle.shape_pool.specs.Rows.{tree_at};
ghost use Rattle.key_results.specs.declared.words.Mover.{Mover};
ghost use Rattle.key_results.specs.Derivations.{joined_by, made_of, most_told, results_of};
ghost use Rattle.key_results.specs.Derivations.{size_made, sizes_from, AreLinked, AreVisitsHeld};
ghost use Rattle.key_results.specs.Weights.{weight};

use crate::derive::{Link, Outcome, Visit};
use shape_pool::Pool;
use std::alloc::{AllocError, Global};

/// The relative results of a key: how many there are, and the depth of the deepest of their trees, 0 where there are
/// none. The number stays at its type's last value.
#[derive(Clone, Copy, Debug, PartialEq, Eq)]
pub struct Weight {
    pub results: u128,
    pub depth: u128,
}

/// What two lists of results weigh together.
fn both(a: Weight, b: Weight) -> Weight
    ensures results { result.results ≡ min (a.results + b.results) most_told }
    ensures depth { result.depth ≡ max a.depth b.depth }
{
    Weight {
        results: a.results.saturating_add(b.results),
        depth: a.depth.max(b.depth),
    }
}

/// What the results to which links lead weigh together.
fn joined(weights: &[Weight], links: &[Link]) -> Weight
    requires { All (λ l. l.key < length weights.now) links.now }
    ensures weight { (results : List (List Use)) (word : ℕ → List Pair) (m : Mover) → weights.now ≡ map weight results
        → result ≡ weight (joined_by word m results links.now) }
    ensures depth { (n : ℕ) → All (λ w. w.depth ≤ n) weights.now → result.depth ≤ n }
{
    let mut sum = Weight {
        results: 0,
        depth: 0,
    };
    for l in links {
        sum = both(sum, weights[l.key]);
    }
    sum
}

/// Whether a node goes with its uses.
fn is_pruned(prune: bool, visit: &Visit, below: Weight) -> bool
    ensures { (parts : List Use) → below ≡ weight parts
        → result ≡ prune && not (is_empty visit.now.links.items) && is_empty parts }
{
    prune && (!visit.links.is_empty() && below.results == 0)
}

/// What a key weighs, by what the results of what it asks for weigh together.
fn weight_of(pool: &Pool, prune: bool, visit: &Visit, below: Weight) -> Weight
    requires id { visit.now.id.0 < length pool.now }
    requires depth { below.depth < 2 ^ 127 }
    ensures weight { (word : ℕ → List Pair) (parts : List Use) → below ≡ weight parts → result ≡ weight
        (made_of visit.now.outcome prune (is_empty visit.now.links.items) (tree_at word pool.now visit.now.id.0)
        parts) }
    ensures depth { (n : ℕ) → 512 ≤ n → below.depth ≤ n → result.depth ≤ n + 1 }
{
    pool.laws();
    match visit.outcome {
        Outcome::Joined => below,
        Outcome::Stays => Weight {
            results: 1,
            depth: u128::from(pool.depth(visit.id)),
        },
        Outcome::Rebuilt => {
            if is_pruned(prune, visit, below) {
                return below;
            }
            Weight {
                results: 1,
                depth: below.depth + 1,
            }
        }
    }
}

/// The uses that a key brings: its relative results, and the uses of the node that is rebuilt.
fn size_of(visit: &Visit, below: Weight, own: Weight) -> u128
    ensures { (prune : Bool) (x : Tree) (parts : List Use) → below ≡ weight parts
        → own ≡ weight (made_of visit.now.outcome prune (is_empty visit.now.links.items) x parts)
        → result ≡ min (size_made visit.now.outcome
        (made_of visit.now.outcome prune (is_empty visit.now.links.items) x parts)) most_told }
{
    match visit.outcome {
        Outcome::Joined | Outcome::Stays => own.results,
        Outcome::Rebuilt => own.results.saturating_add(below.results),
    }
}

/// What all keys weigh, and how many uses they bring together.
#[derive(Drop)]
pub struct Weights {
    pub of_keys: Vec<Weight>,
    pub uses: u128,
}

/// What all keys weigh.
pub fn weigh(
    alloc: Global,
    pool: &Pool,
    prune: bool,
    visits: &[Visit],
) -> Result<Weights, AllocError>
    requires linked { AreLinked visits.now }
    requires held { AreVisitsHeld pool.now visits.now }
    ensures weights { IfOk result (λ w. (word : ℕ → List Pair)
        → w.of_keys.items ≡ map weight (results_of word (tree_at word pool.now) prune visits.now)) }
    ensures uses { IfOk result (λ w. (word : ℕ → List Pair)
        → w.uses ≡ min (sizes_from word (tree_at word pool.now) prune [] visits.now) most_told) }
    ensures deep { IfOk result (λ w. All (λ v. v.depth ≤ 512 + length visits.now) w.of_keys.items) }
{
    let mut of_keys = Vec::new(alloc);
    let mut uses = 0;
    for visit in visits {
        let below = joined(of_keys.as_slice(), visit.links.as_slice());
        let own = weight_of(pool, prune, visit, below);
        uses = u128::saturating_add(uses, size_of(visit, below, own));
        of_keys.push(own)?;
    }
    Ok(Weights { of_keys, uses })
}
