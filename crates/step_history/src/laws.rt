//! Laws of histories, each the contract of a function that does nothing.
ghost use Rattle.step_history.specs.SlowHistory.{SlowHistoryIsTheChanges};
ghost use Rattle.step_history.specs.Composition.{SlowHistoriesChain, OneStepIsItsChange, PairsOfRowsStand};
ghost use Rattle.step_history.specs.Examples.{HistoriesComeOut};
ghost use Rattle.step_history.specs.RowExamples.{RowsComeOut};

use expansion_laws::laws::{
    equal_trees_tell, results_are_determined, results_are_gathered, results_of_visits_occur,
    subtrees_stand, whole_lists_hold_all,
};
use location_words::laws::words_are_a_group;

/// The slow history lists just what the history of a change relates.
pub fn slow_histories_are_listed()
    ensures { SlowHistoryIsTheChanges }
{
    equal_trees_tell();
    words_are_a_group();
    whole_lists_hold_all();
    results_are_determined();
}

/// Worked histories: what the definitions give on small files.
pub fn histories_come_out()
    ensures { HistoriesComeOut }
{}

/// The slow history of steps in a row lists just what the composition relates.
pub fn slow_histories_chain()
    ensures { SlowHistoriesChain }
{
    equal_trees_tell();
    slow_histories_are_listed();
}

/// The history of one step in a row is that of its change.
pub fn one_step_is_its_change()
    ensures { OneStepIsItsChange }
{}

/// The pairs of a history lead from trees of the first root to trees of the last.
pub fn pairs_stand()
    ensures { PairsOfRowsStand }
{
    subtrees_stand();
    words_are_a_group();
    results_are_gathered();
    results_of_visits_occur();
}

/// Worked histories of two steps.
pub fn rows_come_out()
    ensures { RowsComeOut }
{}
