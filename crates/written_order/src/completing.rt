//! The nodes below a root, in the order in which they are complete.
ghost use Rattle.shape_pool.specs.Laws.{ids_used};
ghost use Rattle.written_order.specs.Numbering.{Completes, NoneFrom};
ghost use Rattle.written_order.specs.Orders.{IsOrderOf};
ghost use Rattle.std.specs.Prelude.{◌≡◌, ◌<◌, ◌+◌, All, IfOk, OnOk, length};

use crate::laws::pools_tell;
use crate::order::Order;
use expansion_laws::laws::equal_trees_tell;
use shape_pool::{NodeId, Pool};
use std::alloc::{AllocError, Global};

/// Appends the nodes below a node that aren't there yet, each behind those of its uses, and then the node itself.
fn visit(order: &mut Order, pool: &Pool, id: NodeId) -> Result<(), AllocError>
    requires id { id.0 < length pool.now }
    requires room { id.0 < order.old.room }
    requires held { All (λ i. i < length pool.now) order.old.numbers }
    ensures room { OnOk result (order.new.room ≡ order.old.room) }
    ensures held { OnOk result (All (λ i. i < length pool.now) order.new.numbers) }
    ensures completed { OnOk result (Completes (length pool.now) (ids_used pool.now) id.0 order.old.numbers
        order.new.numbers) }
    ensures stay { OnOk result (NoneFrom (id.0 + 1) order.old.numbers order.new.numbers) }
{
    equal_trees_tell();
    if order.has(id) {
        return Ok(());
    }
    'uses: for at in 0..pool.use_count(id) {
        visit(order, pool, pool.used_at(id, at))?;
    }
    order.push(id)?;
    Ok(())
}

/// The nodes at and below a root, each once: the nodes of the uses of a node come in order before the node itself.
pub fn order_of(alloc: Global, pool: &Pool, root: NodeId) -> Result<Order, AllocError>
    requires { root.0 < length pool.now }
    ensures { IfOk result (λ o. IsOrderOf pool.now root.0 o.numbers) }
{
    pool.laws();
    pools_tell();
    let mut order = Order::new(alloc, root.0 as usize + 1)?;
    visit(&mut order, pool, root)?;
    Ok(order)
}
