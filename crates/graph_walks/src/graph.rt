//! Graphs of numbered nodes.
ghost use Rattle.std.specs.Prelude.{◌≡◌, ◌<◌, ◌≤◌, ◌↔◌, List, [], ◌∷◌, ◌++◌, ◌+◌};
ghost use Rattle.std.specs.Prelude.{length, slice_index_or, IsTrue, OnOk, OnErr};
ghost use Rattle.graph_walks.specs.Graph.{ends_of, lists_of, with_end, AddsEnd, AreStarts};

use std::alloc::{AllocError, Global};
use std::marker::Model;

/// A graph of nodes that are numbered from 0 on. Contracts see the ends of the edges from each node, in order.
///
/// It is built node by node: `add_node`, then `add_end` for each edge from that node. A node may be named as an end
/// before it is added. All ends stand in one list, so that no node takes an allocation of its own.
#[derive(Drop)]
pub struct Graph {
    /// The ends of the edges from each node, one node's after another's.
    ends: Vec<u32>,
    /// Where those of each node start.
    starts: Vec<usize>,
}

impl Model for Graph {
    ghost use Rattle.graph_walks.specs.Graph.{lists_of, AreStarts};
    ghost use Rattle.std.specs.Prelude.{ℕ, List};

    ghost Value = { List (List ℕ) };

    ghost view = { λ g. lists_of g.ends.items g.starts.items };

    ghost invariant = { λ g. AreStarts g.ends.items g.starts.items };
}

impl Graph {
    /// A graph without nodes.
    pub fn new(alloc: Global) -> Graph
        ensures { result ≡ [] }
    {
        Graph {
            ends: Vec::new(alloc),
            starts: Vec::new(alloc),
        }
    }

    /// Adds a node, as yet without edges from it. Its number is how many nodes there were.
    #[tactic(auto, using(crate::proofs::GraphLemmas::starts_node, crate::proofs::GraphLemmas::lists_node))]
    pub fn add_node(&mut self) -> Result<(), AllocError>
        ensures ok { OnOk result (self.new ≡ self.old ++ [] ∷ []) }
        ensures err { OnErr result (self.new ≡ self.old) }
    {
        let start = self.ends.len();
        self.starts.push(start)?;
        Ok(())
    }

    /// Adds an edge from the last node, after those that it has.
    #[tactic(auto, using(crate::proofs::Ends::starts_end, crate::proofs::Ends::parts, crate::proofs::Ends::adds_end))]
    pub fn add_end(&mut self, end: u32) -> Result<(), AllocError>
        requires { 0 < length self.old }
        ensures ok { OnOk result (self.new ≡ with_end self.old end) }
        ensures last { OnOk result (AddsEnd self.old self.new end) }
        ensures err { OnErr result (self.new ≡ self.old) }
    {
        self.ends.push(end)?;
        Ok(())
    }

    /// How many nodes there are.
    #[tactic(auto, using(crate::proofs::GraphLemmas::length_lists))]
    pub fn len(&self) -> usize
        ensures { result ≡ length self.now }
    {
        self.starts.len()
    }

    /// Are there none?
    pub fn is_empty(&self) -> bool
        ensures { IsTrue result ↔ (self.now ≡ []) }
    {
        self.len() == 0
    }

    /// The ends of the edges from a node, in the order in which they were added.
    #[tactic(auto, using(crate::proofs::GraphLemmas::length_lists))]
    pub fn ends(&self, node: u32) -> &[u32]
        requires { node < length self.now }
        ensures { result.now ≡ ends_of self.now node }
    {
        part(self.ends.as_slice(), self.starts.as_slice(), node as usize)
    }
}

/// Where the ends of a node stop: where the next one's start, or after all ends.
fn stop(starts: &[usize], place: usize, all: usize) -> usize
    requires { place < length starts.now }
    ensures { result ≡ slice_index_or starts.now (place + 1) all }
{
    let next = place + 1;
    if next < starts.len() {
        starts[next]
    } else {
        all
    }
}

/// The part of the list of all ends that is a node's.
#[tactic(auto, using(crate::proofs::GraphLemmas::part_within, crate::proofs::GraphLemmas::part_is))]
fn part<'a>(ends: &'a [u32], starts: &[usize], place: usize) -> &'a [u32]
    requires starts { AreStarts ends.now starts.now }
    requires within { place < length starts.now }
    ensures { result.now ≡ ends_of (lists_of ends.now starts.now) place }
{
    let start = starts[place];
    let stop = stop(starts, place, ends.len());
    &ends[start..stop]
}
