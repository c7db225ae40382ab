//! Shapes by the numbers of their nodes and words.
ghost use Rattle.std.specs.Prelude.{◌≡◌, ◌<◌, Some, length, slice_get};

use lists::ListOf;
use location_words::WordId;
use shape_pool::NodeId;

/// A shape: a node, and the accumulated word of the occurrences that it stands for.
#[derive(Clone, Copy, Debug, PartialEq, Eq, Hash)]
pub struct ShapeAt {
    pub id: NodeId,
    pub word: WordId,
}

/// Shapes, each once, in the order in which they are first met.
pub type ShapeMap = ListOf<ShapeAt>;

/// The shape at a place.
pub(crate) fn shape_at(shapes: &ShapeMap, at: usize) -> ShapeAt
    requires { at < length shapes.now }
    ensures { slice_get shapes.now at ≡ Some result }
{
    shapes.as_slice()[at]
}
