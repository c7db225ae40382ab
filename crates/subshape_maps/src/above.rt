//! Which shapes stand above which.
ghost use Rattle.std.specs.Prelude.{◌≡◌, ◌<◌, ◌≤◌, IfErr, IfOk, OnOk, [], length, map};
ghost use Rattle.lists.specs.Distinct.{IsDistinct};
ghost use Rattle.location_words.specs.Tables.{IsTable};
ghost use Rattle.shape_pool.specs.Rows.{HasPlaces};
ghost use Rattle.subshape_maps.specs.Shapes.{first_places};
ghost use Rattle.subshape_maps.specs.Above.{a_row, all_noted, counted, noted, rows_of};
ghost use Rattle.subshape_maps.specs.Above.{HaveLows, IsAboveMap, IsDueAncestors, IsPastPairs};
ghost use Rattle.subshape_maps.specs.Numbered.{at_eq, occurrences_by, root_at, AreHeld, Grows};
ghost use Rattle.subshape_maps.specs.Refusals.{AreMet};

use crate::fault::{MOST_ABOVE, MapFault};
use crate::listing::{all_shapes, of_kind};
use crate::shape::{ShapeAt, ShapeMap, shape_at};
use expansion_laws::laws::equal_trees_tell;
use indexmap::IndexSet;
use lists::ListOf;
use location_words::Words;
use location_words::laws::test_tells;
use orientation::Kind;
use orientation::laws::signs_and_names_tell;
use shape_pool::{Pool, UseOf};
use std::alloc::{AllocError, Global};

/// A low shape, and the high shapes that stand properly above one of its occurrences, in the order in which they are
/// first met.
#[derive(Drop)]
pub struct AboveOne {
    pub low: ShapeAt,
    pub high: ShapeMap,
}

/// Low shapes, each once, in the order in which they are first met.
pub type AncestorMap = ListOf<AboveOne>;

/// The shapes, each found by its numbers.
fn indexed(alloc: Global, shapes: &ShapeMap) -> Result<IndexSet<ShapeAt>, AllocError>
    ensures { IfOk result (λ index. index.keys ≡ first_places at_eq shapes.now) }
{
    let mut index = IndexSet::new(alloc);
    for i in 0..shapes.len() {
        match index.insert(shape_at(shapes, i)) {
            Ok(_) => {}
            Err(_) => return Err(AllocError),
        }
    }
    Ok(index)
}

/// Low shapes, without a high one yet.
fn alone(alloc: Global, lows: &ShapeMap) -> Result<Vec<AboveOne>, AllocError>
    ensures { IfOk result (λ rows. rows.items ≡ map (λ l. a_row l []) lows.now) }
{
    let mut rows = Vec::new(alloc);
    for i in 0..lows.len() {
        let row = AboveOne {
            low: shape_at(lows, i),
            high: ShapeMap::new(alloc),
        };
        match rows.push(row) {
            Ok(()) => {}
            Err(_) => return Err(AllocError),
        }
    }
    Ok(rows)
}

/// Notes a high shape for the low shape of these numbers, if it is one.
fn note_one(
    index: &IndexSet<ShapeAt>,
    rows: &mut Vec<AboveOne>,
    pairs: &mut u64,
    at: ShapeAt,
    high: ShapeAt,
) -> Result<(), MapFault>
    requires lows { HaveLows index.now.keys rows.old.items }
    requires counted { pairs.old ≡ counted rows.old.items }
    requires few { pairs.old ≤ 16777216 }
    ensures rows { OnOk result (rows.new.items ≡ noted at high rows.old.items) }
    ensures counted { OnOk result (pairs.new ≡ counted rows.new.items) }
    ensures few { OnOk result (pairs.new ≤ 16777216) }
    ensures refused { IfErr result (IsPastPairs (counted (noted at high rows.old.items))) }
{
    let Some(place) = index.get_index_of(&at) else {
        return Ok(());
    };
    match rows[place].high.push(high) {
        Ok(()) => {}
        Err(_) => return Err(MapFault::NoMemory),
    }
    *pairs += 1;
    if *pairs > MOST_ABOVE {
        return Err(MapFault::Pairs(MOST_ABOVE + 1));
    }
    Ok(())
}

/// Notes a high shape for each low shape that is among others and isn't itself.
fn note_all(
    index: &IndexSet<ShapeAt>,
    rows: &mut Vec<AboveOne>,
    pairs: &mut u64,
    below: &IndexSet<ShapeAt>,
    high: ShapeAt,
) -> Result<(), MapFault>
    requires lows { HaveLows index.now.keys rows.old.items }
    requires below { IsDistinct below.now.keys }
    requires counted { pairs.old ≡ counted rows.old.items }
    requires few { pairs.old ≤ 16777216 }
    ensures rows { OnOk result (rows.new.items ≡ all_noted below.now.keys high rows.old.items) }
    ensures counted { OnOk result (pairs.new ≡ counted rows.new.items) }
    ensures few { OnOk result (pairs.new ≤ 16777216) }
    ensures refused { IfErr result (IsPastPairs (counted (all_noted below.now.keys high rows.old.items))) }
{
    for i in 0..below.len() {
        let at = below[i];
        if at != high {
            note_one(index, rows, pairs, at, high)?;
        }
    }
    Ok(())
}

/// Low shapes, each with the high shapes above it. All shapes below a high one were met, so that no limit is passed
/// here but that of pairs.
fn all_above(
    alloc: Global,
    pool: &Pool,
    words: &mut Words,
    lows: &ShapeMap,
    highs: &ShapeMap,
) -> Result<Vec<AboveOne>, MapFault>
    requires lows { AreHeld words.old pool.now lows.now }
    requires highs { AreHeld words.old pool.now highs.now }
    requires once { IsDistinct lows.now }
    requires places { HasPlaces pool.now (length words.old) }
    ensures rows { IfOk result (λ rows. rows.items ≡ rows_of words.old pool.now lows.now highs.now) }
    ensures few { IfOk result (λ rows. counted rows.items ≤ 16777216) }
    ensures refused { IfErr result (IsPastPairs (counted (rows_of words.old pool.now lows.now highs.now))) }
    ensures grows { Grows words.old words.new }
    ensures table { IsTable words.new }
{
    pool.laws();
    equal_trees_tell();
    test_tells();
    let _ = words.len();
    let index = indexed(alloc, lows)?;
    let mut rows = alone(alloc, lows)?;
    let mut pairs = 0;
    for i in 0..highs.len() {
        let high = shape_at(highs, i);
        let below = match all_shapes(alloc, pool, words, high) {
            Ok(below) => below,
            Err(_) => return Err(MapFault::NoMemory),
        };
        note_all(&index, &mut rows, &mut pairs, &below, high)?;
    }
    Ok(rows)
}

/// For each low shape of a root the high shapes that stand properly above one of its occurrences, low and high shapes
/// in the order in which they are first met.
///
/// Words that are met are entered into the table.
pub fn ancestors(
    alloc: Global,
    pool: &Pool,
    words: &mut Words,
    root: UseOf,
    low: Kind,
    high: Kind,
) -> Result<AncestorMap, MapFault>
    requires root { root.id.0 < length pool.now }
    requires place { root.place.0 < length words.old }
    requires places { HasPlaces pool.now (length words.old) }
    ensures above { IfOk result (IsAboveMap words.new pool.now root low high) }
    ensures within { OnOk result (AreMet [] (occurrences_by words.old pool.now (root_at root))) }
    ensures few { IfOk result (λ above. counted above ≤ 16777216) }
    ensures refused { IfErr result (IsDueAncestors words.old pool.now root low high) }
    ensures grows { Grows words.old words.new }
    ensures table { IsTable words.new }
{
    pool.laws();
    equal_trees_tell();
    test_tells();
    signs_and_names_tell();
    let at = ShapeAt {
        id: root.id,
        word: root.place,
    };
    let seen = all_shapes(alloc, pool, words, at)?;
    let lows = of_kind(alloc, pool, &seen, Some(low))?;
    let highs = of_kind(alloc, pool, &seen, Some(high))?;
    let rows = all_above(alloc, pool, words, &lows, &highs)?;
    Ok(ListOf::from_vec(rows))
}
