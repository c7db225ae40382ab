//! What a step leaves.
use shape_pool::{IdPairs, UseOf};

/// The new root of a step, and what became of the shapes that it visited.
#[derive(Drop)]
pub struct Rewritten {
    pub root: UseOf,
    /// The pairs of a node and an image of it, in ascending order.
    pub images: IdPairs,
    /// The pairs of a node that met a replace and a node of a result of that visit, in ascending order.
    pub replaced: IdPairs,
}
