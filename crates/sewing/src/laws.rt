//! What the numbers of nodes and of words stand for.
ghost use Rattle.sewing.specs.AsTrees.{StandsForTrees};

use expansion_laws::laws::equal_trees_tell;
use shape_pool::Pool;

/// What holds of every pool: what is asked by numbers stands for what is asked of trees, and ends are the same exactly
/// where they are as trees.
pub fn sewing_stands_for_trees(pool: &Pool)
    ensures { StandsForTrees pool.now }
{
    pool.laws();
    equal_trees_tell();
}
