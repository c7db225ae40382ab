//! What is asked where edges are sewn.
ghost use Rattle.std.specs.Prelude.{◌≡◌, ◌<◌, All, IfErr, IfOk, IsPermutation, IsSorted, length};
ghost use Rattle.orientation.specs.declared.turn.Turn.TheVariants.{Forward};
ghost use Rattle.sewing.specs.declared.member.Member.{Member};
ghost use Rattle.sewing.specs.Asked.{sewing};
ghost use Rattle.sewing.specs.Keys.{key_cmp, keys_at};
ghost use Rattle.sewing.specs.Refused.{CanBeSewn, IsEdge, IsSewFault};

use crate::asking::ask;
use crate::ends::{has_ends, sorted_ends};
use crate::fault::SewFault;
use crate::kinds::is_of;
use crate::member::Member;
use orientation::{Kind, Turn};
use requests::Requests;
use shape_pool::{NodeId, Pool};
use std::alloc::Global;

/// The requests that make each member the first edge under the member's turn, in the order of the members. Or why there
/// are none: the first node is no edge; or else the first member that is no edge, or whose ends under its turn aren't
/// those of the first edge.
pub fn sew(
    alloc: Global,
    pool: &Pool,
    first: NodeId,
    members: &[Member],
) -> Result<Requests, SewFault>
    requires first { first.0 < length pool.now }
    requires members { All (λ (m : Member). m.id.0 < length pool.now) members.now }
    ensures ok { IfOk result (λ asked. asked ≡ sewing first members.now) }
    ensures edge { IfOk result (λ _. IsEdge pool.now first) }
    ensures fit { IfOk result (λ _. All (CanBeSewn pool.now first) members.now) }
    ensures err { IfErr result (IsSewFault pool.now first members.now) }
{
    if !is_of(pool, first, Kind::Ed) {
        return Err(SewFault::NotEdge);
    }
    let Ok(ends) = sorted_ends(alloc, pool, Turn::Forward, first) else {
        return Err(SewFault::NoMemory);
    };
    sew_to(alloc, pool, first, ends.as_slice(), members)
}

/// The same for an edge whose ends are given in order.
fn sew_to(
    alloc: Global,
    pool: &Pool,
    first: NodeId,
    ends: &[(u8, usize, u32)],
    members: &[Member],
) -> Result<Requests, SewFault>
    requires first { first.0 < length pool.now }
    requires members { All (λ (m : Member). m.id.0 < length pool.now) members.now }
    requires edge { IsEdge pool.now first }
    requires same { IsPermutation (keys_at pool.now Forward first.0) ends.now }
    requires order { IsSorted key_cmp ends.now }
    ensures ok { IfOk result (λ asked. asked ≡ sewing first members.now) }
    ensures fit { IfOk result (λ _. All (CanBeSewn pool.now first) members.now) }
    ensures err { IfErr result (IsSewFault pool.now first members.now) }
{
    let mut asked = Requests::new(alloc);
    for place in 0..members.len() {
        let member = members[place];
        if !is_of(pool, member.id, Kind::Ed) {
            return Err(SewFault::KindMismatch { member: place });
        }
        let Ok(same) = has_ends(alloc, pool, first, ends, member) else {
            return Err(SewFault::NoMemory);
        };
        if !same {
            return Err(SewFault::EndsDiffer { member: place });
        }
        let Ok(()) = ask(&mut asked, first, member.turn, member.id) else {
            return Err(SewFault::NoMemory);
        };
    }
    Ok(asked)
}
