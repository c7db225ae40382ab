//! Laws of walks, each the contract of a function that does nothing.
ghost use Rattle.graph_walks.specs.Examples.{CyclesComeOut, OrdersComeOut, RanksComeOut};
ghost use Rattle.graph_walks.specs.Walks.{WalksAreDetermined};
ghost use Rattle.std.specs.Prelude.{ℕ, List};

/// A search finds one thing or nothing, the first cycle is one and a cycle, and a rank is one.
pub fn walks_are_determined()
    ensures { (edges : ℕ → List ℕ) → WalksAreDetermined edges }
{}

/// What counts as an order of what the root reaches, in a small graph.
pub fn orders_come_out()
    ensures { OrdersComeOut }
{}

/// Which cycle counts, and which is the first, in small graphs.
pub fn cycles_come_out()
    ensures { CyclesComeOut }
{}

/// What the rank of a node is, in a small graph.
pub fn ranks_come_out()
    ensures { RanksComeOut }
{}
