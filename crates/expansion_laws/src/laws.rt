//! Laws of trees, files and rewriting, each the contract of a function that does nothing.
ghost use Rattle.std.specs.Prelude.{◌≡◌, ◌↔◌, Bool, true, ℕ, List};
ghost use Rattle.expansion_laws.specs.DerivedVisits.{VisitsAreDerived, VisitsResultsOccur};
ghost use Rattle.expansion_laws.specs.Unconditional.{EdgesAreDemands, ReachedIsVisited, VisitedIsReached};
ghost use Rattle.graph_walks.specs.Walks.{WalksAreDetermined};
ghost use Rattle.expansion_laws.specs.KeyReach.{RankedTreesHaveOneKey, VisitsHaveKeys, ReachGoesByEnds};
ghost use Rattle.expansion_laws.specs.Ending.{CyclesAreFound};
ghost use Rattle.expansion_laws.specs.StepExamples.{StepExamplesComeOut};
ghost use Rattle.expansion_laws.specs.RuleExamples.{RuleExamplesComeOut};
ghost use Rattle.expansion_laws.specs.UsualRule.{UsualRuleGoesThroughAll};
ghost use Rattle.expansion_laws.specs.MeasureExamples.{MeasuresComeOut};
ghost use Rattle.expansion_laws.specs.Keys.{Key};
ghost use Rattle.expansion_laws.specs.SlowMeasures.{key_eq, MeasuresByLists, HeldTreesByLists, MeasuresAreDetermined};
ghost use Rattle.expansion_laws.specs.Ends.{EqualEndsTell, EndsComeOut};
ghost use Rattle.expansion_laws.specs.Graph.{edges, NumbersCarry, NumbersCarrySearches};
ghost use Rattle.expansion_laws.specs.WholeVisits.{WholeListsHoldAll};
ghost use Rattle.expansion_laws.specs.Keeping.{ResultsHaveTheKind, Passes, WhatIsKeptIsKept};
ghost use Rattle.expansion_laws.specs.Keeping.{OriginsStay, KindsStayInOrder, WordsStay};
ghost use Rattle.expansion_laws.specs.Trees.{Tree, Use};
ghost use Rattle.expansion_laws.specs.Equality.{tree_eq};
ghost use Rattle.expansion_laws.specs.Expansion.{NumberedUse, IsFile};
ghost use Rattle.expansion_laws.specs.Written.{IsWritten, flat};
ghost use Rattle.expansion_laws.specs.Fewest.{NoFileHasFewer};
ghost use Rattle.expansion_laws.specs.Walk.{RecordsAreTrees};
ghost use Rattle.expansion_laws.specs.Steps.{Step};
ghost use Rattle.expansion_laws.specs.Subtrees.{SubtreesStand};
ghost use Rattle.expansion_laws.specs.Examples.{ExamplesComeOut};
ghost use Rattle.expansion_laws.specs.RewritingLaws.{IsLeast, IsDetermined, RankedUsesHaveResults};
ghost use Rattle.expansion_laws.specs.RewritingLaws.{ResultsAreCarried, ResultsDependOnKeyAlone, DemandsAreEdges};
ghost use Rattle.expansion_laws.specs.RewritingLaws.{ResultsAreGathered, VisitsAreListed, KeysStandForVisits};

use location_words::laws::words_are_a_group;
use orientation::laws::{signs_and_names_tell, turns_compose};

/// The test of two trees tells whether they are one.
pub fn equal_trees_tell()
    ensures { (x y : Tree) → (tree_eq x y ≡ true) ↔ (x ≡ y) }
{}

/// In a tree stand the tree itself and what stands in the trees of its uses.
pub fn subtrees_stand()
    ensures { SubtreesStand }
{}

/// In a file the numbers of records stand for trees one to one.
pub fn records_are_trees()
    ensures { (records : List (List NumberedUse)) (root : NumberedUse) → IsFile records root → RecordsAreTrees records }
{}

/// Each root is written as records that expand to it again and share what is equal.
pub fn roots_are_written()
    ensures { (root : Use) → IsWritten root (flat root.tree) }
{}

/// No file that expands to a root has fewer records than are written for it.
pub fn fewest()
    ensures { (root : Use) → NoFileHasFewer root }
{}

/// The bounded function gives exactly what the least relation derives.
pub fn rewriting_is_least()
    ensures { (s : Step) → IsLeast s }
{}

/// A use has at most one list of results in a context.
pub fn results_are_determined()
    ensures { (s : Step) → IsDetermined s }
{}

/// Where the graph gives a tree a rank, each use of it has results, in any context.
pub fn ranked_uses_have_results()
    ensures { (s : Step) → RankedUsesHaveResults s }
{}

/// The results of a use are the relative results of its visit, carried by the use.
pub fn results_are_carried()
    ensures { (s : Step) → ResultsAreCarried s }
{
    turns_compose();
    words_are_a_group();
}

/// The relative results of a visit depend on its key alone.
pub fn results_depend_on_key_alone()
    ensures { (s : Step) → ResultsDependOnKeyAlone s }
{}

/// What a visit asks for stands at the ends of the graph's edges.
pub fn demands_are_edges()
    ensures { (s : Step) → DemandsAreEdges s }
{}

/// The relative results of a visit are gathered from those of the visits that it asks for.
pub fn results_are_gathered()
    ensures { (s : Step) → ResultsAreGathered s }
{
    turns_compose();
    words_are_a_group();
}

/// The lists of visits hold what a visit leads to.
pub fn visits_are_listed()
    ensures { (s : Step) → VisitsAreListed s }
{}

/// One context stands for all visits of a key.
pub fn keys_stand_for_visits()
    ensures { (s : Step) → KeysStandForVisits s }
{}

/// The test of two keys tells whether they are one.
pub fn equal_keys_tell()
    ensures { (k l : Key) → (key_eq k l ≡ true) ↔ (k ≡ l) }
{}

/// Worked examples: what the definitions give on small files.
pub fn examples_come_out()
    ensures { ExamplesComeOut }
{}

/// Where every replace fits, the results of a use have its kind.
pub fn results_have_the_kind()
    ensures { (s : Step) → ResultsHaveTheKind s }
{
    signs_and_names_tell();
}

/// What each case of the rule keeps holds of all results and of the new root.
pub fn rewriting_keeps()
    ensures { (s : Step) → WhatIsKeptIsKept s }
{}

/// A step brings no origins but 0 and those that it is given.
pub fn origins_stay()
    ensures { (s : Step) (among : ℕ → Bool) → OriginsStay s (Passes among) }
{}

/// Where every replace fits, kinds stay in order.
pub fn kinds_stay_in_order()
    ensures { (s : Step) → KindsStayInOrder s }
{
    signs_and_names_tell();
}

/// Words stay words, over the datums that a step is given.
pub fn words_stay()
    ensures { (s : Step) (among : ℕ → Bool) → WordsStay s (Passes among) }
{
    words_are_a_group();
}

/// The visits of a derivation are those that the visit of its use leads to.
pub fn visits_are_derived()
    ensures { (s : Step) → VisitsAreDerived s }
{
    turns_compose();
    words_are_a_group();
}

/// The results of each visit stand in the new root.
pub fn results_of_visits_occur()
    ensures { (s : Step) → VisitsResultsOccur s }
{
    turns_compose();
    words_are_a_group();
}

/// Where a tree's live requests are unconditional, each edge is the tree of a demand at every context.
pub fn edges_are_demands()
    ensures { (s : Step) → EdgesAreDemands s }
{}

/// What is visited is reached, and where all live requests are unconditional, what the graph reaches is visited.
pub fn reached_is_visited()
    ensures back { (s : Step) → VisitedIsReached s }
    ensures unconditional { (s : Step) → ReachedIsVisited s }
{}

/// The first cycle of a step's graph is one and a cycle, and a tree has one rank.
pub fn cycles_are_determined()
    ensures { (s : Step) → WalksAreDetermined (edges s) }
{}

/// A list of visits beyond which nothing is asked has them all, and they have results.
pub fn whole_lists_hold_all()
    ensures { (s : Step) → WholeListsHoldAll s }
{
    turns_compose();
    words_are_a_group();
}

/// Reach and ranks among numbers that stand for trees are those among the trees, and so are first cycles and orders of
/// finishing where the numbers tell the trees apart.
pub fn numbers_carry()
    ensures reach { (s : Step) → NumbersCarry s }
    ensures searches { (s : Step) → NumbersCarrySearches s }
{}

/// A tree with a rank has one key at each context.
pub fn ranked_trees_have_one_key()
    ensures { (s : Step) → RankedTreesHaveOneKey s }
{}

/// Where the root's tree has a rank, each visit has a key.
pub fn visits_have_keys()
    ensures { (s : Step) → VisitsHaveKeys s }
{}

/// Whether a place or a turn is reached goes by the ends of edges.
pub fn reach_goes_by_ends()
    ensures { (s : Step) → ReachGoesByEnds s }
{}

/// Worked examples of turns, kinds, edges and keys.
pub fn step_examples_come_out()
    ensures { StepExamplesComeOut }
{}

/// There is a first cycle exactly where there is a cycle, and a rank exactly where there is none.
pub fn cycles_are_found()
    ensures { (s : Step) → CyclesAreFound s }
{}

/// Under the usual rule all is gone through, where vertices have no uses.
pub fn usual_rule_goes_through_all()
    ensures { (s : Step) → UsualRuleGoesThroughAll s }
{}

/// Worked examples of the rule of a step: what stops, and what is pruned.
pub fn rule_examples_come_out()
    ensures { RuleExamplesComeOut }
{}

/// The test of the ends of two edges tells whether they are the same, with repeats.
pub fn equal_ends_tell()
    ensures tell { EqualEndsTell }
    ensures examples { EndsComeOut }
{}

/// The measures of a step are those of its plain slow lists, and each is one number.
pub fn measures_are_listed()
    ensures lists { (s : Step) → MeasuresByLists s }
    ensures held { HeldTreesByLists }
    ensures determined { (s : Step) (root : Use) → MeasuresAreDetermined s root }
{
    turns_compose();
    words_are_a_group();
}

/// Worked measures: keys, words, uses and trees of steps.
pub fn measures_come_out()
    ensures { MeasuresComeOut }
{}
