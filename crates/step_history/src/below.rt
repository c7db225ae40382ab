//! Walks over the nodes below a root, each node once.
ghost use Rattle.std.specs.Prelude.{◌<◌, ◌∷◌, [], length, All, IfOk, OnOk};
ghost use Rattle.shape_pool.specs.Laws.{ids_used};
ghost use Rattle.step_history.specs.Gathering.{IsClosed, Meets};
ghost use Rattle.step_history.specs.Numbered.{AreBelow};

use crate::met::Met;
use shape_pool::{NodeId, Pool};
use std::alloc::{AllocError, Global};

/// Meets a node and all below it, of which nothing that was met before is gone over again. It calls itself no deeper
/// than a pool's trees are.
#[cycle(walk)]
fn meet(pool: &Pool, id: NodeId, met: &mut Met) -> Result<(), AllocError>
    requires id { id.0 < length pool.now }
    requires closed { IsClosed pool.now met.old }
    ensures { OnOk result (Meets pool.now (id.0 ∷ []) met.old met.new) }
{
    if met.has(id.0) {
        return Ok(());
    }
    meet_below(pool, id, met)?;
    met.note(id.0)?;
    Ok(())
}

/// Meets all that stands properly below a node.
#[cycle(walk)]
pub(crate) fn meet_below(pool: &Pool, id: NodeId, met: &mut Met) -> Result<(), AllocError>
    requires id { id.0 < length pool.now }
    requires closed { IsClosed pool.now met.old }
    ensures { OnOk result (Meets pool.now (ids_used pool.now id.0) met.old met.new) }
{
    for at in 0..pool.use_count(id) {
        meet(pool, pool.used_at(id, at), met)?;
    }
    Ok(())
}

/// The nodes that occur in the tree of a root.
pub fn nodes_of(alloc: Global, pool: &Pool, root: NodeId) -> Result<Met, AllocError>
    requires { root.0 < length pool.now }
    ensures below { IfOk result (AreBelow pool.now root.0) }
    ensures held { IfOk result (All (λ i. i < length pool.now)) }
{
    pool.laws();
    let mut met = Met::new(alloc);
    meet(pool, root, &mut met)?;
    Ok(met)
}
