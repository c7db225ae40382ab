//! The kind of a node.
ghost use Rattle.std.specs.Prelude.{◌≡◌, ◌<◌, ◌↔◌, IsTrue, length};
ghost use Rattle.orientation.specs.Kinds.{kind_eq};
ghost use Rattle.shape_pool.specs.Rows.{kind_at};

use orientation::Kind;
use orientation::laws::signs_and_names_tell;
use shape_pool::{NodeId, Pool};

/// Whether two kinds are one.
fn same_kind(a: Kind, b: Kind) -> bool
    ensures { result ≡ kind_eq a b }
{
    (a as u8) == (b as u8)
}

/// Whether a node is of a kind.
pub(crate) fn is_of(pool: &Pool, id: NodeId, kind: Kind) -> bool
    requires { id.0 < length pool.now }
    ensures { IsTrue result ↔ (kind_at pool.now id.0 ≡ kind) }
{
    signs_and_names_tell();
    same_kind(pool.kind(id), kind)
}
