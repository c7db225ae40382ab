//! Which nodes have an occurrence to give.
ghost use Rattle.std.specs.Prelude.{◌≡◌, ◌<◌, ◌≤◌, ◌+◌, Some, length, slice_get, IfOk};
ghost use Rattle.std.specs.List.{list_any};
ghost use Rattle.shape_pool.specs.Rows.{uses_at};
ghost use Rattle.explorer.specs.Walks.{is_avoided as is_avoided_by, is_sought as is_sought_by};
ghost use Rattle.explorer.specs.Levels.{is_marked, AreMarks, IsMark};

use orientation::Kind;
use shape_pool::{NodeId, Pool, UseOf};
use std::alloc::{AllocError, Global};

/// Whether a kind is the one sought; where none is named, each is.
pub(crate) fn is_sought(find: Option<Kind>, kind: Kind) -> bool
    ensures { result ≡ is_sought_by find kind }
{
    match find {
        None => true,
        Some(sought) => kind == sought,
    }
}

/// Whether a kind is the one avoided; where none is named, none is.
fn is_avoided(avoid: Option<Kind>, kind: Kind) -> bool
    ensures { result ≡ is_avoided_by avoid kind }
{
    match avoid {
        None => false,
        Some(avoided) => kind == avoided,
    }
}

/// How many uses a node has.
pub(crate) fn use_count(pool: &Pool, id: NodeId) -> usize
    requires { id.0 < length pool.now }
    ensures { result ≡ length (uses_at pool.now id.0) }
{
    pool.node(id).uses.len()
}

/// A use of a node by number, uses being counted from 0.
pub(crate) fn use_of(pool: &Pool, id: NodeId, at: usize) -> UseOf
    requires id { id.0 < length pool.now }
    requires at { at < length (uses_at pool.now id.0) }
    ensures { slice_get (uses_at pool.now id.0) at ≡ Some result }
{
    let one = &pool.node(id).uses[at];
    UseOf {
        turn: one.turn,
        place: one.place,
        id: one.node.id,
    }
}

/// Whether a use of a node is of a marked one.
fn any_marked(pool: &Pool, marks: &[bool], id: NodeId) -> bool
    requires id { id.0 < length pool.now }
    requires marks { id.0 ≤ length marks.now }
    ensures { result ≡ list_any (is_marked marks.now) (uses_at pool.now id.0) }
{
    pool.laws();
    for i in 0..use_count(pool, id) {
        let one = use_of(pool, id, i);
        if marks[one.id.0 as usize] {
            return true;
        }
    }
    false
}

/// Whether a node has an occurrence to give, by the marks of the nodes before it.
fn has_one(pool: &Pool, marks: &[bool], id: NodeId, find: Option<Kind>, avoid: Option<Kind>) -> bool
    requires id { id.0 < length pool.now }
    requires before { id.0 ≤ length marks.now }
    requires marks { AreMarks pool.now find avoid marks.now }
    ensures { IsMark pool.now find avoid id.0 result }
{
    pool.laws();
    let kind = pool.kind(id);
    if is_avoided(avoid, kind) {
        return false;
    }
    is_sought(find, kind) || any_marked(pool, marks, id)
}

/// The marks of all nodes up to a root.
pub(crate) fn all_marks(
    alloc: Global,
    pool: &Pool,
    root: NodeId,
    find: Option<Kind>,
    avoid: Option<Kind>,
) -> Result<Vec<bool>, AllocError>
    requires { root.0 < length pool.now }
    ensures count { IfOk result (λ marks. length marks.items ≡ root.0 + 1) }
    ensures marks { IfOk result (λ marks. AreMarks pool.now find avoid marks.items) }
{
    pool.laws();
    let count = root.0 + 1;
    let mut marks = Vec::with_capacity(alloc, count as usize)?;
    for i in 0..count {
        let mark = has_one(pool, marks.as_slice(), NodeId(i), find, avoid);
        marks.push(mark)?;
    }
    Ok(marks)
}
