//! The graph of what a root reaches, over places: nodes are counted in the order in which they are met.
ghost use Rattle.std.specs.Prelude.{◌≡◌, ◌<◌, All, IfOk, OnOk, length};
ghost use Rattle.lists.specs.Distinct.{IsDistinct};
ghost use Rattle.requests.specs.Numbered.{AreHeldIn};
ghost use Rattle.requests.specs.Reached.{met_at, HasOneMore, IsReached};

use crate::ends::list_ends;
use crate::table::RequestTable;
use graph_walks::Graph;
use indexmap::IndexSet;
use shape_pool::{NodeId, Pool};
use std::alloc::AllocError;

/// What a root reaches: each node once, the root first, and the graph among their places.
#[derive(Drop)]
pub(crate) struct Reached {
    pub(crate) root: NodeId,
    pub(crate) nodes: IndexSet<u32>,
    pub(crate) graph: Graph,
}

/// The node that was met at a place.
pub(crate) fn met(nodes: &IndexSet<u32>, place: usize) -> NodeId
    requires { place < length nodes.now.keys }
    ensures { result.0 ≡ met_at nodes.now.keys place }
{
    NodeId(nodes.as_slice()[place])
}

/// Adds a node to the graph, with edges to these ends. Ends that aren't met yet are met here.
fn add_node(
    pool: &Pool,
    nodes: &mut IndexSet<u32>,
    graph: &mut Graph,
    ends: &[u32],
) -> Result<(), AllocError>
    requires distinct { IsDistinct nodes.old.keys }
    requires held { All (λ x. x < length pool.now) nodes.old.keys }
    requires ends { All (λ x. x < length pool.now) ends.now }
    ensures { OnOk result (HasOneMore (length pool.now) ends.now nodes.old.keys graph.old nodes.new.keys graph.new) }
{
    pool.laws();
    graph.add_node()?;
    for end in ends {
        let (place, _) = nodes.insert_full(*end)?;
        graph.add_end(place as u32)?;
    }
    Ok(())
}

/// What the root reaches, by the edges of the step's graph.
pub(crate) fn reached_from(
    table: &RequestTable,
    pool: &Pool,
    root: NodeId,
) -> Result<Reached, AllocError>
    requires root { root.0 < length pool.now }
    requires held { AreHeldIn pool.now table.now.requests }
    ensures root { IfOk result (λ r. r.root ≡ root) }
    ensures reached { IfOk result (λ r. IsReached pool.now table.now root.0 r.nodes.keys r.graph) }
{
    pool.laws();
    let alloc = table.allocator();
    let mut nodes = IndexSet::new(alloc);
    let mut graph = Graph::new(alloc);
    let mut ends = Vec::new(alloc);
    nodes.insert(root.0)?;
    let mut next = 0;
    while next < nodes.len() {
        list_ends(table, pool, met(&nodes, next), &mut ends)?;
        add_node(pool, &mut nodes, &mut graph, ends.as_slice())?;
        next += 1;
    }
    Ok(Reached { root, nodes, graph })
}
