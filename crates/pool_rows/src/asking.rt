//! Requests that are added to a table.
ghost use Rattle.std.specs.Prelude.{◌≡◌, ◌<◌, IfOk, length};
ghost use Rattle.requests.specs.Numbered.{ActIsHeldIn, AreHeldIn, IsHeldIn};

use crate::parse::{Stop, halves, kind, number, place_of, turn_of, unsigned};
use crate::scene::{Scene, node_of, use_of};
use location_words::{WordId, Words};
use orientation::{Rule, Turn};
use requests::{Act, AddFault, Request, RequestTable};
use shape_pool::{NodeId, Pool, UseOf};
use std::alloc::Global;

/// Adds a request, and tells whether it was taken.
fn takes(table: &mut RequestTable, pool: &Pool, r: Request) -> Result<bool, Stop>
    requires one { IsHeldIn pool.now r }
    requires held { AreHeldIn pool.now table.old.requests }
    ensures { AreHeldIn pool.now table.new.requests }
{
    match table.add(pool, r) {
        Ok(()) => Ok(true),
        Err(AddFault::KindMismatch) => Ok(false),
        Err(AddFault::NoMemory) => Err(Stop::NoMemory),
    }
}

/// Writes whether a request was taken.
fn put_taken(out: &mut String, taken: bool) -> Result<(), Stop> {
    out.push_str(if taken { "ok" } else { "kind-mismatch" })?;
    Ok(())
}

/// A request for a source, as `-3@a`: a sign, the name of a node, and a word, which asks for no turn and no place where
/// these are left out.
fn request_of(
    alloc: Global,
    scene: &Scene,
    words: &Words,
    source: &str,
    act: Act,
) -> Result<Request, Stop>
    requires { ActIsHeldIn scene.now.pool act }
    ensures { IfOk result (IsHeldIn scene.now.pool) }
{
    let turn = turn_of(source);
    let (name, word) = halves(unsigned(source), '@');
    let source = node_of(scene, name)?;
    let place = if word.is_empty() {
        None
    } else {
        Some(place_of(alloc, words, word)?)
    };
    Ok(Request {
        source,
        place,
        turn,
        act,
    })
}

/// `replace -3@a by 2@b`.
pub(crate) fn replace(
    alloc: Global,
    scene: &Scene,
    words: &Words,
    rest: &str,
    table: &mut RequestTable,
    out: &mut String,
) -> Result<(), Stop>
    requires { AreHeldIn scene.now.pool table.old.requests }
    ensures { AreHeldIn scene.now.pool table.new.requests }
{
    let (source, later) = halves(rest, ' ');
    let (by, target) = halves(later, ' ');
    if by != "by" {
        return Err(Stop::Unreadable);
    }
    let one = use_of(alloc, scene, words, target)?;
    let r = request_of(alloc, scene, words, source, Act::Replace(one))?;
    put_taken(out, takes(table, &scene.pool, r)?)
}

/// `remove -3@a`.
pub(crate) fn remove(
    alloc: Global,
    scene: &Scene,
    words: &Words,
    rest: &str,
    table: &mut RequestTable,
    out: &mut String,
) -> Result<(), Stop>
    requires { AreHeldIn scene.now.pool table.old.requests }
    ensures { AreHeldIn scene.now.pool table.new.requests }
{
    let r = request_of(alloc, scene, words, rest, Act::Remove)?;
    put_taken(out, takes(table, &scene.pool, r)?)
}

/// The node of a record.
fn of_record(pool: &Pool, record: u32) -> Result<NodeId, Stop>
    ensures { IfOk result (λ id. id.0 < length pool.now) }
{
    match pool.named(record) {
        Some(id) if id.0 < pool.mark() => Ok(id),
        _ => Err(Stop::Unreadable),
    }
}

/// Asks that the next record takes the place of a record, wherever it occurs.
fn replace_by_next(pool: &Pool, record: u32, table: &mut RequestTable) -> Result<(), Stop>
    requires { AreHeldIn pool.now table.old.requests }
    ensures { AreHeldIn pool.now table.new.requests }
{
    let source = of_record(pool, record)?;
    let id = of_record(pool, record.wrapping_add(1))?;
    let act = Act::Replace(UseOf {
        turn: Turn::Forward,
        place: WordId(0),
        id,
    });
    let r = Request {
        source,
        place: None,
        turn: None,
        act,
    };
    takes(table, pool, r)?;
    Ok(())
}

/// `chain 1 9`: from record 1 on, asks of 9 records that the next one takes the place of each.
pub(crate) fn chain(
    pool: &Pool,
    rest: &str,
    table: &mut RequestTable,
    out: &mut String,
) -> Result<(), Stop>
    requires { AreHeldIn pool.now table.old.requests }
    ensures { AreHeldIn pool.now table.new.requests }
{
    let (first, count) = halves(rest, ' ');
    let from = number(first)?;
    for step in 0..number(count)? {
        replace_by_next(pool, from.wrapping_add(step), table)?;
    }
    put_taken(out, true)
}

/// `until Fa`: sets down to which kind the step goes.
pub(crate) fn until(rest: &str, table: &mut RequestTable, out: &mut String) -> Result<(), Stop>
    ensures { table.new.requests ≡ table.old.requests }
{
    let prune = table.rule().prune;
    let stop = kind(rest)?;
    table.set_rule(Rule { stop, prune });
    out.push_str("ok")?;
    Ok(())
}

/// `prune`: sets the prune mark.
pub(crate) fn prune(table: &mut RequestTable, out: &mut String) -> Result<(), Stop>
    ensures { table.new.requests ≡ table.old.requests }
{
    let stop = table.rule().stop;
    table.set_rule(Rule { stop, prune: true });
    out.push_str("ok")?;
    Ok(())
}
