//! Rows that make pools.
ghost use Rattle.std.specs.Prelude.{◌<◌, IfOk, length};
ghost use Rattle.shape_pool.specs.Rows.{HasPlaces};

use crate::making::{Made, are_fit, load, make, uses_of, wrap};
use crate::parse::{Stop, halves, kind, number, put_break, put_number, words_of};
use crate::scene::{Scene, give_name, node_of, put_use};
use location_words::Words;
use orientation::{Kind, kind_name};
use shape_pool::{NodeId, Pool, PoolFault, UseOf};
use std::alloc::Global;

/// Writes the number of a node that was made, or why it wasn't.
fn put_made(out: &mut String, made: Made) -> Result<(), Stop> {
    match made {
        Ok(id) => put_number(out, u64::from(id.0)),
        Err(PoolFault::TooMany(n)) => {
            out.push_str("too-many ")?;
            put_number(out, n)
        }
        Err(PoolFault::TooDeep(n)) => {
            out.push_str("too-deep ")?;
            put_number(out, u64::from(n))
        }
        Err(PoolFault::NoMemory) => Err(Stop::NoMemory),
    }
}

/// `Wi 4 -6@a`: makes a node.
fn make_one(
    alloc: Global,
    words: &Words,
    scene: &mut Scene,
    first: &str,
    rest: &str,
    out: &mut String,
) -> Result<(), Stop>
    requires { HasPlaces scene.old.pool (length words.now) }
    ensures { HasPlaces scene.new.pool (length words.now) }
{
    let (name, texts) = halves(rest, ' ');
    let uses = uses_of(alloc, scene, words, texts)?;
    let made = make(alloc, words, scene, kind(first)?, name, uses.as_slice())?;
    put_made(out, made)
}

/// `many Ve 7`: loads records from 1 on, each without uses.
fn make_many(words: &Words, pool: &mut Pool, rest: &str, out: &mut String) -> Result<(), Stop>
    requires { HasPlaces pool.old (length words.now) }
    ensures { HasPlaces pool.new (length words.now) }
{
    let (first, last) = halves(rest, ' ');
    let kind = kind(first)?;
    for before in 0..number(last)? {
        let made = load(pool, words, kind, before.wrapping_add(1), &[])?;
        if made.is_err() {
            return put_made(out, made);
        }
    }
    put_number(out, u64::from(pool.mark()))
}

/// The same uses of another node.
fn uses_over(alloc: Global, uses: &[UseOf], id: NodeId) -> Result<Vec<UseOf>, Stop> {
    let mut others = Vec::new(alloc);
    for one in uses {
        let (turn, place) = (one.turn, one.place);
        others.push(UseOf { turn, place, id })?;
    }
    Ok(others)
}

/// `nest A 9 2 2@a`: makes compounds that stand for no record, the first over these uses and each next one over the one
/// before it in the same way.
fn make_nest(
    alloc: Global,
    words: &Words,
    scene: &mut Scene,
    rest: &str,
    out: &mut String,
) -> Result<(), Stop>
    requires { HasPlaces scene.old.pool (length words.now) }
    ensures { HasPlaces scene.new.pool (length words.now) }
{
    let (name, later) = halves(rest, ' ');
    let (count, texts) = halves(later, ' ');
    let mut uses = uses_of(alloc, scene, words, texts)?;
    let mut top = NodeId(0);
    for _ in 0..number(count)? {
        match wrap(&mut scene.pool, words, uses.as_slice())? {
            Ok(id) => top = id,
            made => return put_made(out, made),
        }
        uses = uses_over(alloc, uses.as_slice(), top)?;
    }
    give_name(alloc, &mut scene.names, name, top)?;
    put_number(out, u64::from(top.0))
}

/// `back 3`: drops the nodes from a number on.
fn go_back(words: &Words, pool: &mut Pool, rest: &str, out: &mut String) -> Result<(), Stop>
    requires { HasPlaces pool.old (length words.now) }
    ensures { HasPlaces pool.new (length words.now) }
{
    let mark = number(rest)?;
    if mark > pool.mark() {
        return Err(Stop::Unreadable);
    }
    pool.back(mark);
    put_number(out, u64::from(pool.mark()))
}

/// Writes the number of a node, or `none`.
fn put_found(out: &mut String, found: Option<NodeId>) -> Result<(), Stop> {
    match found {
        Some(id) => put_number(out, u64::from(id.0)),
        None => {
            out.push_str("none")?;
            Ok(())
        }
    }
}

/// `find 3 -2@a`: the number of the node of a record over these uses, if one is held; record 0 stands for none.
fn find_one(
    alloc: Global,
    words: &Words,
    scene: &Scene,
    rest: &str,
    out: &mut String,
) -> Result<(), Stop> {
    let (record, texts) = halves(rest, ' ');
    let uses = uses_of(alloc, scene, words, texts)?;
    let held = are_fit(&scene.pool, words, Kind::Co, uses.as_slice());
    if !held {
        return Err(Stop::Unreadable);
    }
    let found = scene.pool.find(number(record)?, uses.as_slice())?;
    put_found(out, found)
}

/// `about 3`: a node by its number, kind, record, depth and uses.
fn tell_of(words: &Words, scene: &Scene, rest: &str, out: &mut String) -> Result<(), Stop> {
    let id = node_of(scene, rest)?;
    let node = scene.pool.node(id);
    put_number(out, u64::from(node.id.0))?;
    out.push_str(" ")?;
    for b in kind_name(scene.pool.kind(id)) {
        out.push(char::from(*b))?;
    }
    out.push_str(" of ")?;
    put_number(out, u64::from(scene.pool.origin(id)))?;
    out.push_str(" depth ")?;
    put_number(out, u64::from(scene.pool.depth(id)))?;
    tell_uses(words, scene, id, out)
}

/// Writes the uses of a node.
fn tell_uses(words: &Words, scene: &Scene, id: NodeId, out: &mut String) -> Result<(), Stop>
    requires { id.0 < length scene.now.pool }
{
    for one in scene.pool.node(id).uses.iter() {
        out.push_str(" ")?;
        let used = UseOf {
            turn: one.turn,
            place: one.place,
            id: one.node.id,
        };
        put_use(out, scene, words, used)?;
    }
    Ok(())
}

/// Carries out a statement, and writes what came of it.
fn carry_out(
    alloc: Global,
    words: &Words,
    scene: &mut Scene,
    statement: &str,
    out: &mut String,
) -> Result<(), Stop>
    requires { HasPlaces scene.old.pool (length words.now) }
    ensures { HasPlaces scene.new.pool (length words.now) }
{
    put_break(out)?;
    let (first, rest) = halves(statement, ' ');
    match first.as_bytes() {
        b"many" => make_many(words, &mut scene.pool, rest, out),
        b"nest" => make_nest(alloc, words, scene, rest, out),
        b"back" => go_back(words, &mut scene.pool, rest, out),
        b"find" => find_one(alloc, words, scene, rest, out),
        b"about" => tell_of(words, scene, rest, out),
        b"named" => put_found(out, scene.pool.named(number(rest)?)),
        b"mark" => put_number(out, u64::from(scene.pool.mark())),
        _ => make_one(alloc, words, scene, first, rest, out),
    }
}

/// The pool of statements, and what came of each.
fn carried_out(alloc: Global, words: &Words, held: &str, out: &mut String) -> Result<Scene, Stop>
    ensures { IfOk result (λ scene. HasPlaces scene.pool (length words.now)) }
{
    let mut scene = Scene {
        pool: Pool::new(alloc)?,
        names: Vec::new(alloc),
    };
    for statement in held.split(';') {
        carry_out(alloc, words, &mut scene, statement.trim(), out)?;
    }
    Ok(scene)
}

/// The pool of statements.
pub(crate) fn scene_of(alloc: Global, words: &Words, held: &str) -> Result<Scene, Stop>
    ensures { IfOk result (λ scene. HasPlaces scene.pool (length words.now)) }
{
    let mut out = String::new(alloc);
    carried_out(alloc, words, held, &mut out)
}

/// `pool Ve 2; Co 1 +2 -2`: what came of each statement.
pub(crate) fn pool_row(alloc: Global, rest: &str) -> Result<String, Stop> {
    let words = words_of(alloc, rest, "")?;
    let mut out = String::new(alloc);
    carried_out(alloc, &words, rest, &mut out)?;
    Ok(out)
}
