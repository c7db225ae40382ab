//! Steps that are carried out.
ghost use Rattle.reshape.specs.Answers.{IsHeldAnswer};
ghost use Rattle.reshape.specs.Readings.{IsCarriedOut};
ghost use Rattle.requests.specs.Numbered.{Table};
ghost use Rattle.shape_pool.specs.Rows.{HasPlaces};
ghost use Rattle.std.specs.Prelude.{◌≡◌, ◌<◌, ◌≤◌, IfOk, length};
ghost use Rattle.step_rows.specs.Ready.{AreReady};

use crate::histories::add_history;
use crate::saying::{add_node, add_number, add_pairs, add_use};
use brep_desk::Steps;
use location_words::Words;
use requests::{CheckFault, Plan, RequestTable, Walk};
use reshape::{ApplyFault, LimitKind, Rewritten, apply};
use shape_pool::{Pool, UseOf};
use std::alloc::{AllocError, Global};
use std::marker::Brand;
use std::sync::ledger::{Blank, Ledger};

/// Carries a step out under a counter of its own.
fn carried_out<L: Ledger>(
    pool: &mut Pool,
    words: &mut Words,
    plan: &Plan,
    root: UseOf,
    blank: Blank,
) -> Result<Rewritten, ApplyFault>
    requires name { blank.name ≡ L.name }
    requires parts { blank.parts ≡ L.parts }
    requires some { 0 < blank.parts }
    requires root { root.id.0 < length pool.old }
    requires place { root.place.0 < length words.old }
    requires places { HasPlaces pool.old (length words.old) }
    requires plan { (t : Table) × IsCarriedOut pool.old (length words.old) root.id.0 plan.now t }
    ensures held { IfOk result (IsHeldAnswer pool.new (length words.new)) }
    ensures places { HasPlaces pool.new (length words.new) }
    ensures kept { length pool.old ≤ length pool.new }
{
    let mut steps = Steps::<L>::open(blank);
    apply(pool, words, plan, root, &mut steps)
}

/// The name of a limit of a step.
fn limit_name(which: LimitKind) -> &'static str {
    match which {
        LimitKind::Keys => "limit keys",
        LimitKind::WordPairs => "limit word-pairs",
        LimitKind::WordPower => "limit word-power",
        LimitKind::Uses => "limit uses",
        LimitKind::Depth => "limit depth",
        LimitKind::Nodes => "limit nodes",
        _ => "another limit",
    }
}

/// Appends the origins of a walk.
fn add_walk(text: &mut String, alloc: Global, walk: &Walk) -> Result<(), AllocError> {
    text.push_str("cycle")?;
    for origin in walk.as_slice() {
        add_number(text, alloc, u64::from(*origin))?;
    }
    text.push_str("\n")
}

/// Appends why there is no plan.
fn add_fault(text: &mut String, alloc: Global, fault: &CheckFault) -> Result<(), AllocError> {
    match fault {
        CheckFault::Cycle(walk) => add_walk(text, alloc, walk),
        CheckFault::Rank(n) => {
            text.push_str("rank")?;
            add_number(text, alloc, *n)?;
            text.push_str("\n")
        }
        CheckFault::NoMemory => Err(AllocError),
    }
}

/// Appends why a step isn't carried out.
fn add_refusal(text: &mut String, alloc: Global, fault: &ApplyFault) -> Result<(), AllocError> {
    match fault {
        ApplyFault::Limit { which, count } => {
            text.push_str(limit_name(*which))?;
            add_number(text, alloc, u64::try_from(*count).unwrap_or(u64::MAX))?;
            text.push_str("\n")
        }
        ApplyFault::NoMemory => Err(AllocError),
    }
}

/// Appends the new root, the nodes that were made, and what became of those that were visited.
fn add_made(
    text: &mut String,
    alloc: Global,
    pool: &Pool,
    words: &Words,
    mark: u32,
    made: &Rewritten,
) -> Result<(), AllocError> {
    text.push_str("new root")?;
    add_use(text, alloc, words, made.root)?;
    text.push_str("\n")?;
    for id in mark..pool.mark() {
        add_node(text, alloc, pool, words, id)?;
    }
    text.push_str("images")?;
    add_pairs(text, alloc, &made.images)?;
    text.push_str("\nreplaced")?;
    add_pairs(text, alloc, &made.replaced)?;
    text.push_str("\n")
}

/// Appends what comes of the step from a root.
pub(crate) fn add_step(
    text: &mut String,
    alloc: Global,
    pool: &mut Pool,
    words: &mut Words,
    table: &RequestTable,
    root: UseOf,
) -> Result<(), AllocError>
    requires root { root.id.0 < length pool.old }
    requires place { root.place.0 < length words.old }
    requires places { HasPlaces pool.old (length words.old) }
    requires ready { AreReady pool.old (length words.old) table.now.requests }
{
    let mark = pool.mark();
    let plan = match table.check(pool, root) {
        Ok(plan) => plan,
        Err(fault) => return add_fault(text, alloc, &fault),
    };
    match carried_out::<Brand>(pool, words, &plan, root, Blank::new(1)) {
        Ok(made) => {
            add_made(text, alloc, pool, words, mark, &made)?;
            add_history(text, alloc, pool, words, root, &made)
        }
        Err(fault) => add_refusal(text, alloc, &fault),
    }
}
