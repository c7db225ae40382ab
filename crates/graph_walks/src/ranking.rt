//! Ranks of numbered nodes.
ghost use Rattle.graph_walks.specs.Graph.{ends_of, EndsAreNodes};
ghost use Rattle.graph_walks.specs.Ranks.{AreZeroBeside, HaveRanks};
ghost use Rattle.graph_walks.specs.Walks.{IsFinishOrder, rank_over};
ghost use Rattle.std.specs.Prelude.{◌≡◌, ◌<◌, IfOk, All, length, reverse, ◌^◌, slice_index_or};

use crate::graph::Graph;
use std::alloc::{AllocError, Global};

/// One more than the greatest rank of the nodes, or 0 where there is none.
fn over(ranks: &[usize], ends: &[u32]) -> usize
    requires within { All (λ y. y < length ranks.now) ends.now }
    requires small { All (λ r. r < 2 ^ 63) ranks.now }
    ensures { result ≡ rank_over (λ y. slice_index_or ranks.now y 0) ends.now }
{
    let mut rank = 0;
    for y in ends {
        let next = ranks[*y as usize] + 1;
        if rank < next {
            rank = next;
        }
    }
    rank
}

/// The rank of each node of an order of finishing, at its number, and 0 at the number of any other node.
pub fn ranks(alloc: Global, graph: &Graph, order: &[u32]) -> Result<Vec<usize>, AllocError>
    requires ends { EndsAreNodes graph.now }
    requires within { All (λ x. x < length graph.now) order.now }
    requires order { IsFinishOrder (ends_of graph.now) (reverse order.now) }
    ensures long { IfOk result (λ ranks. length ranks.items ≡ length graph.now) }
    ensures ranked { IfOk result (λ ranks. HaveRanks graph.now order.now ranks.items) }
    ensures others { IfOk result (λ ranks. AreZeroBeside order.now ranks.items) }
{
    let mut ranks = Vec::new(alloc);
    for _ in 0..graph.len() {
        ranks.push(0usize)?;
    }
    for x in order {
        let rank = over(ranks.as_slice(), graph.ends(*x));
        ranks[*x as usize] = rank;
    }
    Ok(ranks)
}
