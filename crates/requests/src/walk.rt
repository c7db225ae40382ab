//! Walks by origins.
ghost use Rattle.std.specs.Prelude.{◌≡◌, ◌<◌, All, IfOk, length, map};
ghost use Rattle.shape_pool.specs.Rows.{origin_at};
ghost use Rattle.requests.specs.Reached.{met_at};

use crate::reached::met;
use indexmap::IndexSet;
use lists::ListOf;
use shape_pool::Pool;
use std::alloc::{AllocError, Global};

/// Origins in the order of a walk.
pub type Walk = ListOf<u32>;

/// The origins of nodes that were met at these places.
pub(crate) fn origins_of(
    alloc: Global,
    pool: &Pool,
    nodes: &IndexSet<u32>,
    places: &[u32],
) -> Result<Walk, AllocError>
    requires held { All (λ x. x < length pool.now) nodes.now.keys }
    requires within { All (λ p. p < length nodes.now.keys) places.now }
    ensures { IfOk result (λ walk. walk ≡ map (λ p. origin_at pool.now (met_at nodes.now.keys p)) places.now) }
{
    let mut walk = ListOf::new(alloc);
    for p in places {
        walk.push(pool.origin(met(nodes, *p as usize)))?;
    }
    Ok(walk)
}
