//! What the numbers of nodes and of words stand for.
ghost use Rattle.script_requests.specs.AsTrees.{AskingStands};

use expansion_laws::laws::{equal_trees_tell, results_have_the_kind};
use requests::targets_fit_as_trees;
use sewing::laws::sewing_stands_for_trees;
use shape_pool::Pool;

/// What holds of every pool: what commands ask by numbers, and why they are refused, stands for what they ask of trees.
#[tactic(none)]
pub fn asking_stands_for_trees(pool: &Pool)
    ensures { AskingStands pool.now }
{
    pool.laws();
    equal_trees_tell();
    results_have_the_kind();
    targets_fit_as_trees(pool);
    sewing_stands_for_trees(pool);
}
