//! Rows about the requests of a step, and its check.
ghost use Rattle.requests.specs.Numbered.{AreHeldIn};

use crate::asking::{chain, prune, remove, replace, until};
use crate::parse::{Stop, halves, put_break, words_of};
use crate::plans::{check, planned, size};
use crate::pools::scene_of;
use crate::scene::{Scene, node_of, use_of};
use crate::texts::{put_request, put_requests};
use location_words::Words;
use requests::RequestTable;
use std::alloc::Global;

/// `find -3@a`: the match of a node's occurrences under a turn and a word.
fn find(
    alloc: Global,
    scene: &Scene,
    words: &Words,
    rest: &str,
    table: &RequestTable,
    out: &mut String,
) -> Result<(), Stop> {
    let one = use_of(alloc, scene, words, rest)?;
    match table.find(one.id, one.turn, one.place) {
        Some(r) => put_request(out, scene, words, &r),
        None => {
            out.push_str("none")?;
            Ok(())
        }
    }
}

/// Carries out a statement, and writes what came of it.
fn carry_out(
    alloc: Global,
    scene: &Scene,
    words: &Words,
    statement: &str,
    table: &mut RequestTable,
    out: &mut String,
) -> Result<(), Stop>
    requires { AreHeldIn scene.now.pool table.old.requests }
    ensures { AreHeldIn scene.now.pool table.new.requests }
{
    put_break(out)?;
    let (first, rest) = halves(statement, ' ');
    match first.as_bytes() {
        b"replace" => replace(alloc, scene, words, rest, table, out),
        b"remove" => remove(alloc, scene, words, rest, table, out),
        b"chain" => chain(&scene.pool, rest, table, out),
        b"until" => until(rest, table, out),
        b"prune" => prune(table, out),
        b"live" => put_requests(out, scene, words, table.live(node_of(scene, rest)?)),
        b"find" => find(alloc, scene, words, rest, table, out),
        b"check" => check(alloc, scene, words, rest, table, out),
        b"size" => size(alloc, scene, words, rest, table, out),
        b"planned" => planned(alloc, scene, words, rest, table, out),
        _ => Err(Stop::Unreadable),
    }
}

/// `requests replace 3 by 2; check 1`: what came of each statement.
pub(crate) fn requests_row(alloc: Global, held: &str, rest: &str) -> Result<String, Stop> {
    let words = words_of(alloc, held, rest)?;
    let scene = scene_of(alloc, &words, held)?;
    let mut table = RequestTable::new(alloc);
    let mut out = String::new(alloc);
    for statement in rest.split(';') {
        carry_out(
            alloc,
            &scene,
            &words,
            statement.trim(),
            &mut table,
            &mut out,
        )?;
    }
    Ok(out)
}
