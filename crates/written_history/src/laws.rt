//! What the numbers of a history stand for.
ghost use Rattle.written_history.specs.Numbered.{NumbersTellHistories, OrdersListOnce};

use expansion_laws::laws::{records_are_trees, roots_are_written, subtrees_stand};
use file_loading::laws::sound_files_have_trees;
use shape_pool::Pool;
use step_history::laws::pairs_stand;
use written_order::laws::orders_number;

/// What holds of every pool: a history in numbers tells the history that lists of nodes tell among trees.
pub fn numbers_tell_histories(pool: &Pool)
    ensures { NumbersTellHistories pool.now }
{
    pool.laws();
    subtrees_stand();
    records_are_trees();
    sound_files_have_trees();
    roots_are_written();
    orders_number();
    pairs_stand();
}

/// What holds of every pool: an order of the nodes below a root has each of them once.
pub fn orders_list_once(pool: &Pool)
    ensures { OrdersListOnce pool.now }
{
    roots_are_written();
}
