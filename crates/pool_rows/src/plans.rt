//! Plans of steps, and why there are none.
ghost use Rattle.std.specs.Prelude.{◌<◌, length};
ghost use Rattle.requests.specs.Numbered.{AreHeldIn};

use crate::parse::{Stop, halves, put_number};
use crate::scene::{Scene, put_name, use_of};
use crate::texts::{put_request, put_requests};
use location_words::Words;
use requests::{CheckFault, Plan, RequestTable, Walk};
use shape_pool::UseOf;
use std::alloc::Global;

/// Writes the nodes of a plan in the order of finishing.
fn put_order(out: &mut String, scene: &Scene, plan: &Plan) -> Result<(), Stop> {
    out.push_str("plan")?;
    for at in 0..plan.len() {
        out.push_str(" ")?;
        put_name(out, scene, plan.id(at))?;
    }
    Ok(())
}

/// Writes the nodes from which a live request with a place is reached.
fn put_places(out: &mut String, scene: &Scene, plan: &Plan) -> Result<(), Stop> {
    out.push_str(" | place")?;
    for at in 0..plan.len() {
        if plan.reaches_place(at) {
            out.push_str(" ")?;
            put_name(out, scene, plan.id(at))?;
        }
    }
    Ok(())
}

/// Writes the nodes from which a live request with a turn is reached.
fn put_turns(out: &mut String, scene: &Scene, plan: &Plan) -> Result<(), Stop> {
    out.push_str(" | turn")?;
    for at in 0..plan.len() {
        if plan.reaches_turn(at) {
            out.push_str(" ")?;
            put_name(out, scene, plan.id(at))?;
        }
    }
    Ok(())
}

/// Writes the live requests of the nodes of a plan, in its order.
fn put_live(out: &mut String, scene: &Scene, words: &Words, plan: &Plan) -> Result<(), Stop> {
    out.push_str(" | live ")?;
    let mut any = false;
    for at in 0..plan.len() {
        let live = plan.live(at);
        if live.is_empty() {
            continue;
        }
        if any {
            out.push_str(", ")?;
        }
        put_requests(out, scene, words, live)?;
        any = true;
    }
    if !any {
        out.push_str("none")?;
    }
    Ok(())
}

/// Writes a plan.
fn put_plan(out: &mut String, scene: &Scene, words: &Words, plan: &Plan) -> Result<(), Stop> {
    put_order(out, scene, plan)?;
    put_places(out, scene, plan)?;
    put_turns(out, scene, plan)?;
    put_live(out, scene, words, plan)
}

/// Writes the origins of a walk.
fn put_walk(out: &mut String, walk: &Walk) -> Result<(), Stop> {
    out.push_str("cycle")?;
    for origin in walk.as_slice() {
        out.push_str(" ")?;
        put_number(out, u64::from(*origin))?;
    }
    Ok(())
}

/// Writes why there is no plan.
fn put_fault(out: &mut String, fault: &CheckFault) -> Result<(), Stop> {
    match fault {
        CheckFault::Cycle(walk) => put_walk(out, walk),
        CheckFault::Rank(n) => {
            out.push_str("rank ")?;
            put_number(out, *n)
        }
        CheckFault::NoMemory => Err(Stop::NoMemory),
    }
}

/// `check 3`: the plan of the step from a root, or why there is none.
pub(crate) fn check(
    alloc: Global,
    scene: &Scene,
    words: &Words,
    rest: &str,
    table: &RequestTable,
    out: &mut String,
) -> Result<(), Stop>
    requires { AreHeldIn scene.now.pool table.now.requests }
{
    let root = use_of(alloc, scene, words, rest)?;
    match table.check(&scene.pool, root) {
        Ok(plan) => put_plan(out, scene, words, &plan),
        Err(fault) => put_fault(out, &fault),
    }
}

/// Writes why there is no plan, a cycle by how many origins its walk has.
fn put_short(out: &mut String, fault: &CheckFault) -> Result<(), Stop> {
    match fault {
        CheckFault::Cycle(walk) => {
            out.push_str("cycle of ")?;
            put_number(out, walk.len() as u64)
        }
        other => put_fault(out, other),
    }
}

/// `size 3`: how many nodes the plan has.
pub(crate) fn size(
    alloc: Global,
    scene: &Scene,
    words: &Words,
    rest: &str,
    table: &RequestTable,
    out: &mut String,
) -> Result<(), Stop>
    requires { AreHeldIn scene.now.pool table.now.requests }
{
    let root = use_of(alloc, scene, words, rest)?;
    match table.check(&scene.pool, root) {
        Ok(plan) => {
            out.push_str("nodes ")?;
            put_number(out, plan.len() as u64)
        }
        Err(fault) => put_short(out, &fault),
    }
}

/// `planned 3 -2@a`: what the plan from a root has for a node under a turn and a word: its place, and the match.
pub(crate) fn planned(
    alloc: Global,
    scene: &Scene,
    words: &Words,
    rest: &str,
    table: &RequestTable,
    out: &mut String,
) -> Result<(), Stop>
    requires { AreHeldIn scene.now.pool table.now.requests }
{
    let (first, second) = halves(rest, ' ');
    let root = use_of(alloc, scene, words, first)?;
    let one = use_of(alloc, scene, words, second)?;
    match table.check(&scene.pool, root) {
        Ok(plan) => put_planned(out, scene, words, &plan, one),
        Err(fault) => put_fault(out, &fault),
    }
}

/// Writes the place of a node in a plan, and its match.
fn put_planned(
    out: &mut String,
    scene: &Scene,
    words: &Words,
    plan: &Plan,
    one: UseOf,
) -> Result<(), Stop> {
    let at = match plan.place_of(one.id) {
        Some(at) if at < plan.len() => at,
        _ => {
            out.push_str("not reached")?;
            return Ok(());
        }
    };
    put_number(out, at as u64)?;
    match plan.find(at, one.turn, one.place) {
        Some(r) => {
            out.push_str(" ")?;
            put_request(out, scene, words, &r)
        }
        None => {
            out.push_str(" none")?;
            Ok(())
        }
    }
}
