//! What is asked where nodes are merged.
ghost use Rattle.std.specs.Prelude.{◌≡◌, ◌<◌, All, IfErr, IfOk, length};
ghost use Rattle.shape_pool.specs.declared.node.NodeId.{NodeId};
ghost use Rattle.sewing.specs.Asked.{merging};
ghost use Rattle.sewing.specs.Refused.{HasItsKind, IsMergeFault};

use crate::asking::ask;
use crate::fault::SewFault;
use crate::kinds::is_of;
use orientation::Turn;
use requests::Requests;
use shape_pool::{NodeId, Pool};
use std::alloc::Global;

/// The requests that make each member the first node, in the order of the members, or the first member of another kind.
pub fn merge(
    alloc: Global,
    pool: &Pool,
    first: NodeId,
    members: &[NodeId],
) -> Result<Requests, SewFault>
    requires first { first.0 < length pool.now }
    requires members { All (λ (m : NodeId). m.0 < length pool.now) members.now }
    ensures ok { IfOk result (λ asked. asked ≡ merging first members.now) }
    ensures kinds { IfOk result (λ _. All (HasItsKind pool.now first) members.now) }
    ensures err { IfErr result (IsMergeFault pool.now first members.now) }
{
    let kind = pool.kind(first);
    let mut asked = Requests::new(alloc);
    for place in 0..members.len() {
        let member = members[place];
        if !is_of(pool, member, kind) {
            return Err(SewFault::KindMismatch { member: place });
        }
        let Ok(()) = ask(&mut asked, first, Turn::Forward, member) else {
            return Err(SewFault::NoMemory);
        };
    }
    Ok(asked)
}
