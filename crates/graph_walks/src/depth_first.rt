//! Depth first search of a graph of numbered nodes.
ghost use Rattle.graph_walks.specs.Graph.{ends_of, EndsAreNodes};
ghost use Rattle.graph_walks.specs.Search.{path_of, IsClosedAt, IsFound};
ghost use Rattle.graph_walks.specs.Walks.{HasCycle};
ghost use Rattle.graph_walks.specs.declared.depth_first.Mark.TheVariants.{New};
ghost use Rattle.std.specs.Prelude.{◌≡◌, ◌<◌, ◌+◌, ◌^◌, IfOk, IfSome, IsTrue, ◌↔◌};
ghost use Rattle.std.specs.Prelude.{length, Contains, replicate, slice_get};

use crate::graph::Graph;
use std::alloc::{AllocError, Global};

/// Where the search stands with a node.
#[derive(Clone, Copy, PartialEq, Eq)]
enum Mark {
    New,
    OnPath,
    Done,
}

/// A node on the path, and how many of its edges are gone through.
#[derive(Clone, Copy)]
struct Frame {
    node: u32,
    next: usize,
}

/// What a search finds.
#[derive(Drop)]
pub enum Found {
    /// The first cycle: its nodes, and the first one again.
    Cycle(Vec<u32>),
    /// All that the root reaches, each node once and after the ends of its edges.
    Order(Vec<u32>),
}

/// Searches depth first from the root, each node once, in the order of the edges.
pub fn search(alloc: Global, graph: &Graph, root: u32) -> Result<Found, AllocError>
    requires root { root < length graph.now }
    requires ends { EndsAreNodes graph.now }
    ensures { IfOk result (IsFound graph.now root) }
{
    let mut marks = new_marks(alloc, graph.len())?;
    let mut order = Vec::new(alloc);
    let mut path = Vec::new(alloc);
    marks[root as usize] = Mark::OnPath;
    path.push(Frame {
        node: root,
        next: 0,
    })?;
    while let Some(top) = path.pop() {
        let Some(end) = next_end(graph, top) else {
            marks[top.node as usize] = Mark::Done;
            order.push(top.node)?;
            continue;
        };
        match marks[end as usize] {
            Mark::Done => path.push(Frame {
                node: top.node,
                next: top.next + 1,
            })?,
            Mark::OnPath => {
                path.push(top)?;
                return Ok(Found::Cycle(closed(alloc, path.as_slice(), end)?));
            }
            Mark::New => {
                marks[end as usize] = Mark::OnPath;
                path.push(top)?;
                path.push(Frame { node: end, next: 0 })?;
            }
        }
    }
    Ok(Found::Order(order))
}

/// Whether the root reaches a cycle.
pub fn has_cycle(alloc: Global, graph: &Graph, root: u32) -> Result<bool, AllocError>
    requires root { root < length graph.now }
    requires ends { EndsAreNodes graph.now }
    ensures { IfOk result (λ b. IsTrue b ↔ HasCycle (ends_of graph.now) root) }
{
    match search(alloc, graph, root)? {
        Found::Cycle(_) => Ok(true),
        Found::Order(_) => Ok(false),
    }
}

/// Marks of nodes that aren't met yet.
fn new_marks(alloc: Global, nodes: usize) -> Result<Vec<Mark>, AllocError>
    ensures { IfOk result (λ marks. marks.items ≡ replicate nodes New) }
{
    let mut marks = Vec::new(alloc);
    for _ in 0..nodes {
        marks.push(Mark::New)?;
    }
    Ok(marks)
}

/// The end of the next edge of a frame, if one is left.
fn next_end(graph: &Graph, frame: Frame) -> Option<u32>
    requires { frame.node < length graph.now }
    ensures end { result ≡ slice_get (ends_of graph.now frame.node) frame.next }
    ensures room { IfSome result (λ _. frame.next + 1 < 2 ^ 64) }
{
    graph.ends(frame.node).get(frame.next).copied()
}

/// The path from a node on, and that node again.
fn closed(alloc: Global, path: &[Frame], end: u32) -> Result<Vec<u32>, AllocError>
    requires { Contains (path_of path.now) end }
    ensures { IfOk result (λ walk. IsClosedAt (path_of path.now) end walk.items) }
{
    let mut walk = Vec::new(alloc);
    let mut met = false;
    for f in path {
        if met {
            walk.push(f.node)?;
        } else if f.node == end {
            met = true;
            walk.push(f.node)?;
        }
    }
    walk.push(end)?;
    Ok(walk)
}
