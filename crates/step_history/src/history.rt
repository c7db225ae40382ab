//! The history of a step over the nodes of a pool.
use shape_pool::{IdPairs, Ids};

/// What became of shapes in a step or in several: each list ascends and has nothing twice.
#[derive(Drop)]
pub struct StepHistory {
    /// Pairs of a shape and what it became, which is itself where it stayed as it was.
    pub images: IdPairs,
    /// Pairs of a shape that was replaced and a new shape of a lower kind that its replacement brought.
    pub generated: IdPairs,
    /// Shapes that became nothing.
    pub removed: Ids,
}
