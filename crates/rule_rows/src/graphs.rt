//! Rows of graphs: `0:1,2 1:2 2:` has the nodes 0, 1 and 2, each with the ends of its edges.
ghost use Rattle.std.specs.Prelude.{◌<◌, ◌≡◌, All, IsTrue, length};
ghost use Rattle.graph_walks.specs.Graph.{EndsAreNodes};

use graph_walks::{Found, Graph, has_cycle, mark_reaching, ranks, search};
use std::alloc::Global;
use tree_texts::{Missed, counted, cut, cut_if, join, said, small, yes};

/// Adds a node with the ends of its edges.
fn add(graph: &mut Graph, node: &str) -> Result<(), Missed> {
    let (number, ends) = cut(node, ":")?;
    if small(number)? as usize != graph.len() {
        return Err(Missed::Unclear);
    }
    graph.add_node()?;
    if ends.is_empty() {
        return Ok(());
    }
    add_ends(graph, ends)
}

/// Adds edges from the last node.
fn add_ends(graph: &mut Graph, ends: &str) -> Result<(), Missed> {
    for end in ends.split(",") {
        if graph.len() == 0 {
            return Err(Missed::Unclear);
        }
        graph.add_end(small(end)?)?;
    }
    Ok(())
}

/// The graph of a text.
fn graph(alloc: Global, text: &str) -> Result<Graph, Missed> {
    let mut graph = Graph::new(alloc);
    if text == "none" {
        return Ok(graph);
    }
    for node in text.split(" ") {
        add(&mut graph, node)?;
    }
    Ok(graph)
}

/// Whether all of these are below a number.
fn all_below(ends: &[u32], count: usize) -> bool
    ensures { IsTrue result → All (λ end. end < count) ends.now }
{
    for end in ends {
        if *end as usize >= count {
            return false;
        }
    }
    true
}

/// Whether each edge leads to a node of the graph.
fn is_closed(graph: &Graph) -> bool
    ensures { IsTrue result → EndsAreNodes graph.now }
{
    let count = graph.len();
    for node in 0..count {
        if node as u64 > u64::from(u32::MAX) || !all_below(graph.ends(node as u32), count) {
            return false;
        }
    }
    true
}

/// Nodes with spaces between them, or `none`.
fn nodes_said(alloc: Global, nodes: &[u32]) -> Result<String, Missed> {
    if nodes.is_empty() {
        return said(alloc, "none");
    }
    let mut text = String::new(alloc);
    for node in nodes {
        let one = counted(alloc, u64::from(*node))?;
        join(&mut text, " ", one.as_str())?;
    }
    Ok(text)
}

/// Numbers by node, with spaces between them.
fn ranks_said(alloc: Global, ranks: &[usize]) -> Result<String, Missed> {
    let mut text = String::new(alloc);
    for rank in ranks {
        let one = counted(alloc, *rank as u64)?;
        join(&mut text, " ", one.as_str())?;
    }
    Ok(text)
}

/// What a search finds.
fn search_said(alloc: Global, found: &Found) -> Result<String, Missed> {
    let (what, nodes) = match found {
        Found::Cycle(walk) => ("cycle ", walk.as_slice()),
        Found::Order(order) => ("order ", order.as_slice()),
    };
    let mut text = said(alloc, what)?;
    text.push_str(nodes_said(alloc, nodes)?.as_str())?;
    Ok(text)
}

/// The rank of each node that the root reaches, and 0 for the others.
fn ranked(alloc: Global, graph: &Graph, root: u32) -> Result<String, Missed>
    requires root { root < length graph.now }
    requires ends { EndsAreNodes graph.now }
{
    match search(alloc, graph, root)? {
        Found::Cycle(_) => said(alloc, "cycle"),
        Found::Order(order) => {
            let ranks = ranks(alloc, graph, order.as_slice())?;
            ranks_said(alloc, ranks.as_slice())
        }
    }
}

/// Those of the nodes that are marked, in the order of their numbers.
fn marked_said(alloc: Global, marks: &[bool]) -> Result<String, Missed> {
    let mut text = String::new(alloc);
    let mut node = 0u64;
    for mark in marks {
        if *mark {
            let one = counted(alloc, node)?;
            join(&mut text, " ", one.as_str())?;
        }
        node = node.saturating_add(1);
    }
    Ok(text)
}

/// The nodes that the root reaches and that reach a node themselves, and that node.
fn leading(alloc: Global, graph: &Graph, root: u32, node: usize) -> Result<String, Missed>
    requires root { root < length graph.now }
    requires ends { EndsAreNodes graph.now }
{
    let mut marks = vec![in alloc; false; graph.len()]?;
    if node >= marks.len() {
        return Err(Missed::Unclear);
    }
    marks[node] = true;
    match search(alloc, graph, root)? {
        Found::Cycle(_) => said(alloc, "cycle"),
        Found::Order(order) => {
            mark_reaching(graph, order.as_slice(), marks.as_mut_slice());
            marked_said(alloc, marks.as_slice())
        }
    }
}

/// What is asked of a graph and a root.
fn asked(
    alloc: Global,
    graph: &Graph,
    what: &str,
    root: u32,
    node: Option<&str>,
) -> Result<String, Missed>
    requires root { root < length graph.now }
    requires ends { EndsAreNodes graph.now }
{
    match what {
        "reach" => leading(alloc, graph, root, small(node.unwrap_or(""))? as usize),
        "ends" => nodes_said(alloc, graph.ends(root)),
        "cycle" => yes(alloc, has_cycle(alloc, graph, root)?),
        "search" => search_said(alloc, &search(alloc, graph, root)?),
        "ranks" => ranked(alloc, graph, root),
        _ => Err(Missed::Unclear),
    }
}

/// `GRAPH ; count`, `; empty`, `; ends NODE`, `; cycle ROOT`, `; search ROOT`, `; ranks ROOT` or `; reach ROOT NODE`.
pub(crate) fn of_graph(alloc: Global, row: &str) -> Result<String, Missed> {
    let (text, what) = cut(row, " ; ")?;
    let graph = graph(alloc, text)?;
    let (what, nodes) = cut_if(what, " ");
    if what == "count" {
        return counted(alloc, graph.len() as u64);
    }
    if what == "empty" {
        return yes(alloc, graph.is_empty());
    }
    let (first, second) = cut_if(nodes.unwrap_or(""), " ");
    let root = small(first)?;
    if root as usize >= graph.len() || !is_closed(&graph) {
        return Err(Missed::Unclear);
    }
    asked(alloc, &graph, what, root, second)
}
