//! Whether a target may stand in a source's place.
ghost use Rattle.std.specs.Prelude.{◌≡◌, ◌<◌, ◌↔◌, All, IsTrue, length};
ghost use Rattle.orientation.specs.Rules.{is_above};
ghost use Rattle.shape_pool.specs.Rows.{kind_at};
ghost use Rattle.shape_pool.specs.Laws.{ids_used};
ghost use Rattle.requests.specs.Numbered.{FitsAt};
ghost use Rattle.requests.specs.Readings.{FitsByTrees};

use orientation::Kind;
use shape_pool::{NodeId, Pool};

/// Whether all uses of a node are of a kind.
fn are_of(pool: &Pool, id: NodeId, kind: Kind) -> bool
    requires { id.0 < length pool.now }
    ensures { IsTrue result ↔ All (λ j. kind_at pool.now j ≡ kind) (ids_used pool.now id.0) }
{
    for at in 0..pool.use_count(id) {
        if pool.kind(pool.used_at(id, at)) != kind {
            return false;
        }
    }
    true
}

/// Whether the second kind is higher than the first.
fn is_higher(low: Kind, high: Kind) -> bool
    ensures { result ≡ is_above low high }
{
    (low as u8) < (high as u8)
}

/// Whether a target fits a source: it has its kind, or a higher kind, at least one use, and uses of the source's kind
/// alone.
pub(crate) fn fits(pool: &Pool, source: NodeId, target: NodeId) -> bool
    requires source { source.0 < length pool.now }
    requires target { target.0 < length pool.now }
    ensures { IsTrue result ↔ FitsAt pool.now source.0 target.0 }
{
    let kind = pool.kind(source);
    let other = pool.kind(target);
    if other == kind {
        return true;
    }
    let higher = is_higher(kind, other);
    if !higher {
        return false;
    }
    if pool.use_count(target) == 0 {
        return false;
    }
    are_of(pool, target, kind)
}

/// What holds of every pool: a target fits a source exactly where its tree fits the source's.
pub fn targets_fit_as_trees(pool: &Pool)
    ensures { FitsByTrees pool.now }
{
    pool.laws();
}
