//! Going through the occurrences of a tree.
ghost use Rattle.std.specs.Prelude.{◌≡◌, ◌<◌, IfErr, OnOk, Some, length, slice_get};
ghost use Rattle.location_words.specs.Tables.{IsTable};
ghost use Rattle.shape_pool.specs.Rows.{uses_at};
ghost use Rattle.subshape_maps.specs.Numbered.{Grows, IsDueAfter, IsReady, Meets};

use crate::fault::MapFault;
use crate::joining::joined;
use crate::noting::note;
use crate::shape::ShapeAt;
use expansion_laws::laws::equal_trees_tell;
use indexmap::IndexSet;
use location_words::Words;
use location_words::laws::{limits_tell, test_tells};
use shape_pool::{NodeId, Pool, UseOf};

/// How many uses a node has.
fn use_count(pool: &Pool, id: NodeId) -> usize
    requires { id.0 < length pool.now }
    ensures { result ≡ length (uses_at pool.now id.0) }
{
    pool.node(id).uses.len()
}

/// A use of a node by number, uses being counted from 0.
fn use_of(pool: &Pool, id: NodeId, at: usize) -> UseOf
    requires id { id.0 < length pool.now }
    requires at { at < length (uses_at pool.now id.0) }
    ensures { slice_get (uses_at pool.now id.0) at ≡ Some result }
{
    let one = &pool.node(id).uses[at];
    UseOf {
        turn: one.turn,
        place: one.place,
        id: one.node.id,
    }
}

/// Meets a shape and, where it is a new one, the shapes of the occurrences below it. One that was met before isn't
/// entered again.
pub(crate) fn meet(
    pool: &Pool,
    words: &mut Words,
    seen: &mut IndexSet<ShapeAt>,
    at: ShapeAt,
) -> Result<(), MapFault>
    requires { IsReady words.old pool.now seen.old.keys at }
    ensures met { OnOk result (Meets words.old words.new pool.now seen.old.keys seen.new.keys at) }
    ensures refused { IfErr result (IsDueAfter words.old pool.now seen.old.keys at) }
    ensures grows { Grows words.old words.new }
    ensures table { IsTable words.new }
{
    pool.laws();
    equal_trees_tell();
    test_tells();
    limits_tell();
    if !note(seen, at)? {
        return Ok(());
    }
    'uses: for i in 0..use_count(pool, at.id) {
        let one = use_of(pool, at.id, i);
        let word = joined(words, at.word, one.place)?;
        meet(pool, words, seen, ShapeAt { id: one.id, word })?;
    }
    Ok(())
}
