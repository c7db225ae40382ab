//! What derivations denote.
ghost use Rattle.std.specs.Prelude.{◌≡◌, ℕ, Bool, List, []};
ghost use Rattle.location_words.specs.declared.pair.Pair.{Pair};
ghost use Rattle.location_words.specs.Pairs.{IsWord};
ghost use Rattle.expansion_laws.specs.Trees.{Tree};
ghost use Rattle.expansion_laws.specs.Steps.{Step};
ghost use Rattle.shape_pool.specs.declared.node.NodeId.{NodeId};
ghost use Rattle.shape_pool.specs.Rows.{Row};
ghost use Rattle.key_results.specs.declared.derive.Visit.{Visit};
ghost use Rattle.key_results.specs.declared.key.Key.{Key};
ghost use Rattle.key_results.specs.declared.parts.Outgrowth.{Outgrowth};
ghost use Rattle.key_results.specs.Derivations.{AreLinked};
ghost use Rattle.key_results.specs.Derived.{DerivesResults, IsDerivation};
ghost use Rattle.key_results.specs.Results.{AreTreesOfNodes, FollowVisits, GiveResults};

use expansion_laws::laws::{keys_stand_for_visits, results_are_gathered};
use location_words::laws::words_are_a_group;

/// What a derivation denotes are the relative results of its keys.
pub fn derivations_derive()
    ensures { (s : Step) (word : ℕ → List Pair) (rows : List Row) (keys : List Key) (visits : List Visit)
        → word 0 ≡ [] → ((i : ℕ) → IsWord (word i)) → AreLinked visits → IsDerivation s word rows keys visits
        → DerivesResults s word rows keys visits }
{
    words_are_a_group();
    results_are_gathered();
    keys_stand_for_visits();
}

/// What a list of visits denotes follows it, visit by visit.
pub fn results_follow_visits()
    ensures { (word : ℕ → List Pair) (tree : ℕ → Tree) (prune : Bool) → FollowVisits word tree prune }
{}

/// What comes of each key gives its results.
pub fn outgrowths_give_results()
    ensures { (word : ℕ → List Pair) (tree : ℕ → Tree) (prune : Bool) (visits : List Visit)
        (outgrowths : List Outgrowth) → GiveResults word tree prune visits outgrowths }
{}

/// The trees of the results of a key are those of its nodes.
pub fn nodes_stand_for_results()
    ensures { (old : List Row) (new : List Row) (word : ℕ → List Pair) (prune : Bool) (visits : List Visit)
        (outgrowths : List Outgrowth) (nodes : List NodeId)
        → AreTreesOfNodes old new word prune visits outgrowths nodes }
{}
