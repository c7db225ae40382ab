//! The ends of the edges from a node.
ghost use Rattle.std.specs.Prelude.{◌≡◌, ◌<◌, ◌++◌, OnOk, length};
ghost use Rattle.std.specs.List.{flat_map};
ghost use Rattle.orientation.specs.Kinds.{kind_eq};
ghost use Rattle.shape_pool.specs.Laws.{ids_used};
ghost use Rattle.requests.specs.Numbered.{starts_plain, ActIsHeldIn, AreHeldIn};
ghost use Rattle.requests.specs.Readings.{ends_at, targets_at};

use crate::request::{Act, Request};
use crate::table::RequestTable;
use orientation::Kind;
use shape_pool::{NodeId, Pool};
use std::alloc::AllocError;

/// Whether two kinds are one.
fn same_kind(a: Kind, b: Kind) -> bool
    ensures { result ≡ kind_eq a b }
{
    (a as u8) == (b as u8)
}

/// Whether the first of the requests is unconditional.
fn starts_unconditional(live: &[Request]) -> bool
    ensures { result ≡ starts_plain live.now }
{
    match live.first() {
        Some(r) => r.is_unconditional(),
        None => false,
    }
}

/// Adds the numbers that a node's uses name.
fn push_uses(pool: &Pool, id: NodeId, ends: &mut Vec<u32>) -> Result<(), AllocError>
    requires { id.0 < length pool.now }
    ensures { OnOk result (ends.new.items ≡ ends.old.items ++ ids_used pool.now id.0) }
{
    for at in 0..pool.use_count(id) {
        ends.push(pool.used_at(id, at).0)?;
    }
    Ok(())
}

/// Adds the numbers to which an act leads from a node.
fn push_targets(pool: &Pool, id: NodeId, act: Act, ends: &mut Vec<u32>) -> Result<(), AllocError>
    requires id { id.0 < length pool.now }
    requires act { ActIsHeldIn pool.now act }
    ensures { OnOk result (ends.new.items ≡ ends.old.items ++ targets_at pool.now id.0 act) }
{
    match act {
        Act::Remove => Ok(()),
        Act::Replace(by) => {
            if same_kind(pool.kind(id), pool.kind(by.id)) {
                ends.push(by.id.0)?;
                return Ok(());
            }
            push_uses(pool, by.id, ends)
        }
    }
}

/// Adds the numbers to which requests lead from a node.
fn push_all_targets(
    pool: &Pool,
    id: NodeId,
    live: &[Request],
    ends: &mut Vec<u32>,
) -> Result<(), AllocError>
    requires id { id.0 < length pool.now }
    requires held { AreHeldIn pool.now live.now }
    ensures { OnOk result (ends.new.items ≡ ends.old.items
        ++ flat_map (λ r. targets_at pool.now id.0 r.act) live.now) }
{
    for r in live {
        push_targets(pool, id, r.act, ends)?;
    }
    Ok(())
}

/// Lists the ends of the edges from a node, in order: those of its live requests, and then, unless one of these is
/// unconditional or the node isn't entered, those to its own uses.
pub(crate) fn list_ends(
    table: &RequestTable,
    pool: &Pool,
    id: NodeId,
    ends: &mut Vec<u32>,
) -> Result<(), AllocError>
    requires id { id.0 < length pool.now }
    requires held { AreHeldIn pool.now table.now.requests }
    ensures { OnOk result (ends.new.items ≡ ends_at pool.now table.now id.0) }
{
    ends.clear();
    let live = table.live(id);
    push_all_targets(pool, id, live, ends)?;
    if !starts_unconditional(live) && table.rule().enters(pool.kind(id)) {
        push_uses(pool, id, ends)?;
    }
    Ok(())
}
