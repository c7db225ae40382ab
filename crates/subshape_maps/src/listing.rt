//! The map of the shapes of a root.
ghost use Rattle.std.specs.Prelude.{◌≡◌, ◌<◌, Contains, IfErr, IfOk, OnOk, [], length};
ghost use Rattle.subshape_maps.specs.declared.shape.ShapeAt.{ShapeAt};
ghost use Rattle.std.specs.List.{filter};
ghost use Rattle.lists.specs.Distinct.{IsDistinct};
ghost use Rattle.location_words.specs.Tables.{IsTable};
ghost use Rattle.shape_pool.specs.Rows.{HasPlaces};
ghost use Rattle.subshape_maps.specs.Numbered.{is_asked_at, occurrences_by, root_at, Grows, IsHeldAt, IsMap, Meets};
ghost use Rattle.subshape_maps.specs.Refusals.{AreMet, IsDue};

use crate::fault::MapFault;
use crate::meeting::meet;
use crate::shape::{ShapeAt, ShapeMap};
use expansion_laws::laws::equal_trees_tell;
use indexmap::IndexSet;
use location_words::Words;
use location_words::laws::test_tells;
use orientation::Kind;
use orientation::laws::signs_and_names_tell;
use shape_pool::{Pool, UseOf};
use std::alloc::{AllocError, Global};

/// All shapes of the occurrences of one, of whatever kind.
pub(crate) fn all_shapes(
    alloc: Global,
    pool: &Pool,
    words: &mut Words,
    at: ShapeAt,
) -> Result<IndexSet<ShapeAt>, MapFault>
    requires held { IsHeldAt words.old pool.now at }
    requires places { HasPlaces pool.now (length words.old) }
    ensures met { IfOk result (λ seen. Meets words.old words.new pool.now [] seen.keys at) }
    ensures once { IfOk result (λ seen. IsDistinct seen.keys) }
    ensures refused { IfErr result (IsDue [] (occurrences_by words.old pool.now at)) }
    ensures grows { Grows words.old words.new }
    ensures table { IsTable words.new }
{
    pool.laws();
    equal_trees_tell();
    test_tells();
    let _ = words.len();
    let mut seen = IndexSet::new(alloc);
    meet(pool, words, &mut seen, at)?;
    Ok(seen)
}

/// Whether a shape is of a kind, where one is asked for.
pub(crate) fn is_asked(pool: &Pool, kind: Option<Kind>, at: ShapeAt) -> bool
    requires { at.id.0 < length pool.now }
    ensures { result ≡ is_asked_at pool.now kind at }
{
    match kind {
        None => true,
        Some(k) => pool.kind(at.id) == k,
    }
}

/// The shapes of a kind among those met, in their order.
pub(crate) fn of_kind(
    alloc: Global,
    pool: &Pool,
    seen: &IndexSet<ShapeAt>,
    kind: Option<Kind>,
) -> Result<ShapeMap, AllocError>
    requires { (s : ShapeAt) → Contains seen.now.keys s → s.id.0 < length pool.now }
    ensures { IfOk result (λ shapes. shapes ≡ filter (is_asked_at pool.now kind) seen.now.keys) }
{
    let mut shapes = ShapeMap::new(alloc);
    for i in 0..seen.len() {
        let at = seen[i];
        if is_asked(pool, kind, at) {
            shapes.push(at)?;
        }
    }
    Ok(shapes)
}

/// The shapes of a kind in the expansion of a root, each once in the order in which it is first met: depth first,
/// parents before children, uses in order. Without a kind it is those of every kind.
///
/// A shape that was met is not entered again. Words that are met are entered into the table.
pub fn map_shapes(
    alloc: Global,
    pool: &Pool,
    words: &mut Words,
    root: UseOf,
    kind: Option<Kind>,
) -> Result<ShapeMap, MapFault>
    requires root { root.id.0 < length pool.now }
    requires place { root.place.0 < length words.old }
    requires places { HasPlaces pool.now (length words.old) }
    ensures map { IfOk result (IsMap words.new pool.now root kind) }
    ensures within { OnOk result (AreMet [] (occurrences_by words.old pool.now (root_at root))) }
    ensures refused { IfErr result (IsDue [] (occurrences_by words.old pool.now (root_at root))) }
    ensures grows { Grows words.old words.new }
    ensures table { IsTable words.new }
{
    pool.laws();
    equal_trees_tell();
    test_tells();
    signs_and_names_tell();
    let at = ShapeAt {
        id: root.id,
        word: root.place,
    };
    let seen = all_shapes(alloc, pool, words, at)?;
    let shapes = of_kind(alloc, pool, &seen, kind)?;
    Ok(shapes)
}
