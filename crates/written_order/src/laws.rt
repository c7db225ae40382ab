//! Laws of the order in which nodes are written. Each function does nothing: its contract is the law.
ghost use Rattle.written_order.specs.Orders.{OrdersNumber, PoolsTell};

use expansion_laws::laws::{fewest, roots_are_written};

/// The numbers of a pool tell its trees apart.
pub fn pools_tell()
    ensures { PoolsTell }
{}

/// The places in an order, counted from the last, are the numbers with which trees are written, and no other file has
/// fewer records.
pub fn orders_number()
    ensures { OrdersNumber }
{
    roots_are_written();
    fewest();
}
