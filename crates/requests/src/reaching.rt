//! From which nodes the graph reaches one with a live request that has a part.
ghost use Rattle.std.specs.Prelude.{◌≡◌, IfOk, length};
ghost use Rattle.graph_walks.specs.Graph.{EndsAreNodes};
ghost use Rattle.graph_walks.specs.Search.{IsOrderFrom};
ghost use Rattle.requests.specs.Plans.{asked, TellReach};

use crate::asking::{Part, asking};
use crate::reached::Reached;
use crate::table::RequestTable;
use graph_walks::mark_reaching;
use std::alloc::AllocError;

/// Marks for the places of an order of finishing: whether the graph reaches from there a node with a live request that
/// has the part.
pub(crate) fn reaching(
    table: &RequestTable,
    reached: &Reached,
    order: &[u32],
    part: Part,
) -> Result<Vec<bool>, AllocError>
    requires long { length reached.now.graph ≡ length reached.now.nodes.keys }
    requires ends { EndsAreNodes reached.now.graph }
    requires found { IsOrderFrom reached.now.graph 0 order.now }
    ensures long { IfOk result (λ marks. length marks.items ≡ length reached.now.nodes.keys) }
    ensures marked { IfOk result (λ marks. TellReach (asked part table.now.requests reached.now.nodes.keys)
        reached.now.graph order.now marks.items) }
{
    let mut marks = asking(table, &reached.nodes, part)?;
    mark_reaching(&reached.graph, order, marks.as_mut_slice());
    Ok(marks)
}
