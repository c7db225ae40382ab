//! A pool whose nodes go by names.
//!
//! The node of a record goes by its number. A compound that stands for no record goes by a capital letter. What a node
//! is rebuilt to goes by its name and a prime more.
ghost use Rattle.std.specs.Prelude.{◌≡◌, ◌<◌, IfOk, IfSome, IsTrue, length};
ghost use Rattle.orientation.specs.Kinds.{IsBelow};
ghost use Rattle.shape_pool.specs.Rows.{kind_at};

use crate::parse::{Stop, halves, place_of, put_number, put_sign, put_word, turn_of, unsigned};
use location_words::Words;
use orientation::Turn;
use shape_pool::{NodeId, Pool, UseOf};
use std::alloc::{AllocError, Global};

/// A node that goes by a name other than its record's number.
#[derive(Drop)]
pub(crate) struct Name {
    pub text: String,
    pub id: NodeId,
}

/// A pool and the names of its nodes.
#[derive(Drop)]
pub(crate) struct Scene {
    pub pool: Pool,
    pub names: Vec<Name>,
}

/// The node that goes by a name, perhaps one that is no longer held.
fn named(names: &[Name], text: &str) -> Option<NodeId> {
    for name in names {
        if name.text.as_str() == text {
            return Some(name.id);
        }
    }
    None
}

/// The held node that goes by a name, if there is one.
pub(crate) fn found(scene: &Scene, text: &str) -> Option<NodeId>
    ensures { IfSome result (λ id. id.0 < length scene.now.pool) }
{
    let id = match text.parse::<u32>() {
        Ok(origin) => scene.pool.named(origin)?,
        Err(_) => named(scene.names.as_slice(), text)?,
    };
    if id.0 < scene.pool.mark() {
        Some(id)
    } else {
        None
    }
}

/// The held node that goes by a name.
pub(crate) fn node_of(scene: &Scene, text: &str) -> Result<NodeId, Stop>
    ensures { IfOk result (λ id. id.0 < length scene.now.pool) }
{
    match found(scene, text) {
        Some(id) => Ok(id),
        None => Err(Stop::Unreadable),
    }
}

/// A use, as `-2@a.b`: a sign, which is `+` where it is left out, the name of a node, and a word.
pub(crate) fn use_of(alloc: Global, scene: &Scene, words: &Words, text: &str) -> Result<UseOf, Stop>
    ensures { IfOk result (λ one. one.id.0 < length scene.now.pool) }
{
    let turn = turn_of(text).unwrap_or(Turn::Forward);
    let (name, word) = halves(unsigned(text), '@');
    let id = node_of(scene, name)?;
    let place = place_of(alloc, words, word)?;
    Ok(UseOf { turn, place, id })
}

/// The name of a node that doesn't go by its record's number, if it has one.
fn name_of<'a>(names: &'a [Name], id: NodeId) -> Option<&'a str> {
    for name in names {
        if name.id == id {
            return Some(name.text.as_str());
        }
    }
    None
}

/// Writes the name of a node, or its number behind `#` where it has none.
pub(crate) fn put_name(out: &mut String, scene: &Scene, id: NodeId) -> Result<(), Stop> {
    if id.0 >= scene.pool.mark() {
        return Err(Stop::Unreadable);
    }
    let origin = scene.pool.origin(id);
    if scene.pool.named(origin) == Some(id) {
        return put_number(out, u64::from(origin));
    }
    match name_of(scene.names.as_slice(), id) {
        Some(name) => {
            out.push_str(name)?;
            Ok(())
        }
        None => {
            out.push_str("#")?;
            put_number(out, u64::from(id.0))
        }
    }
}

/// Writes a use.
pub(crate) fn put_use(
    out: &mut String,
    scene: &Scene,
    words: &Words,
    one: UseOf,
) -> Result<(), Stop> {
    put_sign(out, one.turn)?;
    put_name(out, scene, one.id)?;
    put_word(out, words, one.place)
}

/// Gives a node a name.
pub(crate) fn give_name(
    alloc: Global,
    names: &mut Vec<Name>,
    text: &str,
    id: NodeId,
) -> Result<(), Stop> {
    let text = String::from_str(alloc, text)?;
    names.push(Name { text, id })?;
    Ok(())
}
