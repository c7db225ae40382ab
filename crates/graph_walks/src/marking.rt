//! Marks along the edges of a graph.
ghost use Rattle.graph_walks.specs.Graph.{ends_of, EndsAreNodes};
ghost use Rattle.graph_walks.specs.Marks.{is_marked, ReachesMarked};
ghost use Rattle.graph_walks.specs.Walks.{IsFinishOrder};
ghost use Rattle.std.specs.List.{list_any};
ghost use Rattle.std.specs.Prelude.{◌≡◌, ◌<◌, ◌↔◌, ℕ, All, Contains, IsTrue, length, reverse};

use crate::graph::Graph;

/// Whether one of these nodes is marked.
fn any_marked(marks: &[bool], nodes: &[u32]) -> bool
    requires { All (λ y. y < length marks.now) nodes.now }
    ensures { result ≡ list_any (is_marked marks.now) nodes.now }
{
    for y in nodes {
        if marks[*y as usize] {
            return true;
        }
    }
    false
}

/// Marks each node of an order of finishing that reaches a marked one. Of the other nodes the marks stay.
pub fn mark_reaching(graph: &Graph, order: &[u32], marks: &mut [bool])
    requires ends { EndsAreNodes graph.now }
    requires within { All (λ x. x < length graph.now) order.now }
    requires order { IsFinishOrder (ends_of graph.now) (reverse order.now) }
    requires marks { length marks.old ≡ length graph.now }
    ensures long { length marks.new ≡ length marks.old }
    ensures reach { (x : ℕ) → Contains order.now x
        → IsTrue (is_marked marks.new x) ↔ ReachesMarked (ends_of graph.now) marks.old x }
    ensures others { (x : ℕ) → (Contains order.now x → ⊥) → is_marked marks.new x ≡ is_marked marks.old x }
{
    for x in order {
        if any_marked(marks, graph.ends(*x)) {
            marks[*x as usize] = true;
        }
    }
}
