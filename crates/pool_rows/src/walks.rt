//! Rows about the occurrences below a root.

use crate::maps::root_of;
use crate::parse::{
    Stop, halves, kind, kind_or_all, number, put_number, put_pairs, put_sign, words_of,
};
use crate::pools::scene_of;
use crate::scene::{Scene, put_name};
use explorer::{Explorer, Found, WordLimit};
use location_words::Pair;
use orientation::Kind;
use std::alloc::Global;

/// The kind that is avoided, if one is named.
fn avoided(text: &str) -> Result<Option<Kind>, Stop> {
    if text == "-" {
        return Ok(None);
    }
    Ok(Some(kind(text)?))
}

/// Writes an occurrence: its turn, its node and its word.
fn put_found(out: &mut String, scene: &Scene, found: Found, word: &[Pair]) -> Result<(), Stop> {
    put_sign(out, found.turn)?;
    put_name(out, scene, found.id)?;
    put_pairs(out, word)?;
    out.push_str(" ")?;
    Ok(())
}

/// Writes which limit a word is past.
fn put_limit(out: &mut String, limit: WordLimit) -> Result<(), Stop> {
    out.push_str(if limit.pairs {
        "word pairs "
    } else {
        "word power "
    })?;
    put_number(out, u64::try_from(limit.count).unwrap_or(u64::MAX))
}

/// Writes the next occurrence, or why there is none. Whether there was one.
fn put_next(out: &mut String, scene: &Scene, explorer: &mut Explorer<'_>) -> Result<bool, Stop> {
    match explorer.next() {
        Ok(Some(found)) => {
            put_found(out, scene, found, explorer.word())?;
            Ok(true)
        }
        Ok(None) => {
            out.push_str("end")?;
            Ok(false)
        }
        Err(limit) => {
            put_limit(out, limit)?;
            Ok(false)
        }
    }
}

/// `walk 9 Ve Fa 1@a`: at most so many occurrences of a kind, neither of another kind nor below one, `-` where none is
/// avoided; and `end` behind the last one, or the limit that an accumulated word is past.
pub(crate) fn walk_row(alloc: Global, held: &str, rest: &str) -> Result<String, Stop> {
    let words = words_of(alloc, held, rest)?;
    let scene = scene_of(alloc, &words, held)?;
    let (most, kinds) = halves(rest, ' ');
    let (find, others) = halves(kinds, ' ');
    let (avoid, text) = halves(others, ' ');
    let root = root_of(alloc, &scene, &words, text)?;
    let mut explorer = Explorer::new(
        alloc,
        &scene.pool,
        &words,
        root,
        kind_or_all(find)?,
        avoided(avoid)?,
    )?;
    let mut out = String::new(alloc);
    for _ in 0..number(most)? {
        if !put_next(&mut out, &scene, &mut explorer)? {
            break;
        }
    }
    Ok(out)
}
