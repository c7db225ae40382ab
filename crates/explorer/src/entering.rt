//! Which use is entered next.
ghost use Rattle.std.specs.Prelude.{◌≡◌, ◌<◌, ◌≤◌, ◌+◌, ◌^◌, [], drop, length, IfNone, IfSome};
ghost use Rattle.std.specs.List.{filter};
ghost use Rattle.shape_pool.specs.Rows.{uses_at};
ghost use Rattle.explorer.specs.Levels.{is_marked, IsEndOfWay, IsNextOnWay, IsNextUse, IsWay};

use crate::giving::{use_count, use_of};
use crate::trail::Trail;
use shape_pool::{NodeId, Pool, UseOf};

/// The first use of a node from a place on whose node has an occurrence to give.
fn next_marked(pool: &Pool, marks: &[bool], id: NodeId, from: usize) -> Option<usize>
    requires id { id.0 < length pool.now }
    requires marks { id.0 ≤ length marks.now }
    ensures some { IfSome result (λ i. IsNextUse marks.now (uses_at pool.now id.0) from i) }
    ensures fits { IfSome result (λ i. i + 1 < 2 ^ 64) }
    ensures none { IfNone result (filter (is_marked marks.now) (drop from (uses_at pool.now id.0)) ≡ []) }
{
    pool.laws();
    for i in from..use_count(pool, id) {
        let one = use_of(pool, id, i);
        if marks[one.id.0 as usize] {
            return Some(i);
        }
    }
    None
}

/// The next use whose node has an occurrence to give. What is gone through is left, and the innermost node is then the
/// one of this use; without such a use nothing is left.
pub(crate) fn next_use(
    pool: &Pool,
    marks: &[bool],
    start: &mut Option<UseOf>,
    trail: &mut Trail,
) -> Option<UseOf>
    requires { IsWay pool.now (length marks.now) start.old trail.old }
    ensures some { IfSome result (λ u. IsNextOnWay pool.now marks.now start.old trail.old start.new trail.new u) }
    ensures none { IfNone result (IsEndOfWay pool.now marks.now start.old trail.old start.new trail.new) }
    ensures way { IsWay pool.now (length marks.now) start.new trail.new }
    ensures deep { trail.new.deep ≡ trail.old.deep }
{
    pool.laws();
    while let Some((id, at)) = trail.last() {
        if let Some(i) = next_marked(pool, marks, id, at) {
            trail.pass(i + 1);
            return Some(use_of(pool, id, i));
        }
        trail.leave();
    }
    let root = start.take()?;
    if marks[root.id.0 as usize] {
        Some(root)
    } else {
        None
    }
}
