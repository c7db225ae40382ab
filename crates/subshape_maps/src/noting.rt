//! The shapes met so far.
ghost use Rattle.std.specs.Prelude.{◌≡◌, ◌≤◌, ◌<◌, not, IfErr, IfOk, length};
ghost use Rattle.std.specs.List.{list_any};
ghost use Rattle.subshape_maps.specs.Shapes.{with_new};
ghost use Rattle.subshape_maps.specs.Numbered.{at_eq};
ghost use Rattle.subshape_maps.specs.Refusals.{most_shapes, IsOneTooMany};

use crate::fault::{MOST_SHAPES, MapFault};
use crate::shape::ShapeAt;
use indexmap::IndexSet;

/// Notes a shape that is met, and tells whether it is a new one.
pub(crate) fn note(seen: &mut IndexSet<ShapeAt>, at: ShapeAt) -> Result<bool, MapFault>
    requires { length seen.old.keys ≤ most_shapes }
    ensures keys { IfOk result (λ new. seen.new.keys ≡ with_new at_eq seen.old.keys at) }
    ensures new { IfOk result (λ new. new ≡ not (list_any (at_eq at) seen.old.keys)) }
    ensures few { IfOk result (λ new. length seen.new.keys ≤ most_shapes) }
    ensures refused { IfErr result (IsOneTooMany (length (with_new at_eq seen.old.keys at))) }
{
    let new = match seen.insert_full(at) {
        Ok((_, new)) => new,
        Err(_) => return Err(MapFault::NoMemory),
    };
    if seen.len() > MOST_SHAPES {
        return Err(MapFault::Keys(MOST_SHAPES as u64 + 1));
    }
    Ok(new)
}
