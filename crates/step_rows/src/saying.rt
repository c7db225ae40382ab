//! Nodes and uses of a pool, in words.
ghost use Rattle.std.specs.Prelude.{◌<◌, length};

use location_words::{WordId, Words};
use orientation::{kind_name, sign};
use shape_pool::{IdPairs, NodeId, Pool, UseOf};
use std::alloc::{AllocError, Global};

/// Appends a space and a number.
pub(crate) fn add_number(text: &mut String, alloc: Global, n: u64) -> Result<(), AllocError> {
    text.push_str(format!(in alloc; " {n}")?.as_str())
}

/// Appends a word: its datums with their powers, innermost first, as `@1^1.2^-1`, and nothing for the identity.
fn add_word(text: &mut String, alloc: Global, words: &Words, id: WordId) -> Result<(), AllocError> {
    if id.0 >= words.len() {
        return text.push_str("@?");
    }
    let mut mark = "@";
    for pair in words.word(id).pairs() {
        text.push_str(format!(in alloc; "{mark}{}^{}", pair.datum, pair.power)?.as_str())?;
        mark = ".";
    }
    Ok(())
}

/// Appends a use: its sign, the number of its node, and its word.
pub(crate) fn add_use(
    text: &mut String,
    alloc: Global,
    words: &Words,
    one: UseOf,
) -> Result<(), AllocError> {
    text.push_str(" ")?;
    text.push(char::from(sign(one.turn)))?;
    text.push_str(format!(in alloc; "{}", one.id.0)?.as_str())?;
    add_word(text, alloc, words, one.place)
}

/// Appends a node: its number, its kind, its record and its uses.
pub(crate) fn add_node(
    text: &mut String,
    alloc: Global,
    pool: &Pool,
    words: &Words,
    id: u32,
) -> Result<(), AllocError>
    requires { id < length pool.now }
{
    let id = NodeId(id);
    text.push_str(format!(in alloc; "{} ", id.0)?.as_str())?;
    for b in kind_name(pool.kind(id)) {
        text.push(char::from(*b))?;
    }
    text.push_str(format!(in alloc; " of {}", pool.origin(id))?.as_str())?;
    for one in pool.node(id).uses.iter() {
        let (turn, place, id) = (one.turn, one.place, one.node.id);
        add_use(text, alloc, words, UseOf { turn, place, id })?;
    }
    text.push_str("\n")
}

/// Appends pairs of nodes by their numbers, that of a node and itself by its number alone.
pub(crate) fn add_pairs(
    text: &mut String,
    alloc: Global,
    pairs: &IdPairs,
) -> Result<(), AllocError> {
    for pair in pairs.as_slice() {
        add_number(text, alloc, u64::from(pair.0.0))?;
        if pair.0 != pair.1 {
            text.push_str(format!(in alloc; ">{}", pair.1.0)?.as_str())?;
        }
    }
    Ok(())
}
