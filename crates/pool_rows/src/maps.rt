//! Rows about the shapes of a root, and those above others.
ghost use Rattle.std.specs.Prelude.{◌<◌, IfOk, length};
ghost use Rattle.shape_pool.specs.Rows.{HasPlaces};

use crate::parse::{Stop, halves, kind, kind_or_all, put_break, put_number, put_word, words_of};
use crate::pools::scene_of;
use crate::scene::{Scene, put_name, use_of};
use location_words::{WordFault, Words};
use orientation::Kind;
use shape_pool::UseOf;
use std::alloc::Global;
use subshape_maps::{AncestorMap, MapFault, ShapeAt, ShapeMap, ancestors, map_shapes};

/// A root that may be looked into.
pub(crate) fn root_of(
    alloc: Global,
    scene: &Scene,
    words: &Words,
    text: &str,
) -> Result<UseOf, Stop>
    ensures root { IfOk result (λ root. root.id.0 < length scene.now.pool) }
    ensures place { IfOk result (λ root. root.place.0 < length words.now) }
{
    let root = use_of(alloc, scene, words, text)?;
    if root.place.0 >= words.len() {
        return Err(Stop::Unreadable);
    }
    Ok(root)
}

/// Writes a word and a number.
fn put_limit(out: &mut String, name: &str, n: u64) -> Result<(), Stop> {
    out.push_str(name)?;
    put_number(out, n)
}

/// A number that is as large as 64 bits allow where it is larger.
fn clipped(n: u128) -> u64 {
    u64::try_from(n).unwrap_or(u64::MAX)
}

/// Writes why there is no list.
fn put_fault(out: &mut String, fault: &MapFault) -> Result<(), Stop> {
    match fault {
        MapFault::Word(WordFault::Pairs(n)) => put_limit(out, "word pairs ", clipped(*n)),
        MapFault::Word(WordFault::Power(n)) => put_limit(out, "word power ", clipped(*n)),
        MapFault::Keys(n) => put_limit(out, "keys ", *n),
        MapFault::Pairs(n) => put_limit(out, "pairs ", *n),
        MapFault::Word(WordFault::NoMemory) | MapFault::NoMemory => Err(Stop::NoMemory),
    }
}

/// Writes a shape.
fn put_shape(out: &mut String, scene: &Scene, words: &Words, shape: ShapeAt) -> Result<(), Stop> {
    put_name(out, scene, shape.id)?;
    put_word(out, words, shape.word)
}

/// Writes shapes, or `none`.
fn put_shapes(
    out: &mut String,
    scene: &Scene,
    words: &Words,
    shapes: &ShapeMap,
) -> Result<(), Stop> {
    if shapes.is_empty() {
        out.push_str("none")?;
    }
    let mut mark = "";
    for shape in shapes.as_slice() {
        out.push_str(mark)?;
        put_shape(out, scene, words, *shape)?;
        mark = " ";
    }
    Ok(())
}

/// Writes shapes and those above each.
fn put_above(
    out: &mut String,
    scene: &Scene,
    words: &Words,
    above: &AncestorMap,
) -> Result<(), Stop> {
    for one in above.as_slice() {
        put_break(out)?;
        put_shape(out, scene, words, one.low)?;
        out.push_str(": ")?;
        put_shapes(out, scene, words, &one.high)?;
    }
    Ok(())
}

/// How many pairs of a shape and one above it there are.
fn pairs_of(above: &AncestorMap) -> u64 {
    let mut pairs = 0u64;
    for one in above.as_slice() {
        pairs = pairs.saturating_add(one.high.len() as u64);
    }
    pairs
}

/// `map Fa 1@a`: the shapes of a kind below a root, each once, or why they are refused.
pub(crate) fn map_row(alloc: Global, held: &str, rest: &str) -> Result<String, Stop> {
    let mut words = words_of(alloc, held, rest)?;
    let scene = scene_of(alloc, &words, held)?;
    let (asked, text) = halves(rest, ' ');
    let kind = kind_or_all(asked)?;
    let root = root_of(alloc, &scene, &words, text)?;
    let mut out = String::new(alloc);
    match map_shapes(alloc, &scene.pool, &mut words, root, kind) {
        Ok(shapes) => put_shapes(&mut out, &scene, &words, &shapes)?,
        Err(fault) => put_fault(&mut out, &fault)?,
    }
    Ok(out)
}

/// `count Fa 1@a`: how many they are.
pub(crate) fn count_row(alloc: Global, held: &str, rest: &str) -> Result<String, Stop> {
    let mut words = words_of(alloc, held, rest)?;
    let scene = scene_of(alloc, &words, held)?;
    let (asked, text) = halves(rest, ' ');
    let kind = kind_or_all(asked)?;
    let root = root_of(alloc, &scene, &words, text)?;
    let mut out = String::new(alloc);
    match map_shapes(alloc, &scene.pool, &mut words, root, kind) {
        Ok(shapes) => put_number(&mut out, shapes.len() as u64)?,
        Err(fault) => put_fault(&mut out, &fault)?,
    }
    Ok(out)
}

/// `above Ed Fa 1`: each shape of the first kind below a root with those of the second kind above it.
pub(crate) fn above_row(alloc: Global, held: &str, rest: &str) -> Result<String, Stop> {
    let mut words = words_of(alloc, held, rest)?;
    let scene = scene_of(alloc, &words, held)?;
    let (low, later) = halves(rest, ' ');
    let (high, text) = halves(later, ' ');
    let root = root_of(alloc, &scene, &words, text)?;
    let mut out = String::new(alloc);
    match ancestors(
        alloc,
        &scene.pool,
        &mut words,
        root,
        kind(low)?,
        kind(high)?,
    ) {
        Ok(above) => put_above(&mut out, &scene, &words, &above)?,
        Err(fault) => put_fault(&mut out, &fault)?,
    }
    Ok(out)
}

/// `above-count Ed Fa 1`: how many pairs of a shape and one above it there are.
pub(crate) fn above_count_row(alloc: Global, held: &str, rest: &str) -> Result<String, Stop> {
    let mut words = words_of(alloc, held, rest)?;
    let scene = scene_of(alloc, &words, held)?;
    let (low, later) = halves(rest, ' ');
    let (high, text) = halves(later, ' ');
    let root = root_of(alloc, &scene, &words, text)?;
    let mut out = String::new(alloc);
    match ancestors(
        alloc,
        &scene.pool,
        &mut words,
        root,
        kind(low)?,
        kind(high)?,
    ) {
        Ok(above) => put_number(&mut out, pairs_of(&above))?,
        Err(fault) => put_fault(&mut out, &fault)?,
    }
    Ok(out)
}
