//! Rows about merging and sewing.
ghost use Rattle.std.specs.Prelude.{◌<◌, All, IfOk, length};
ghost use Rattle.shape_pool.specs.declared.node.NodeId.{NodeId};
ghost use Rattle.sewing.specs.declared.member.Member.{Member};

use crate::parse::{Stop, halves, put_number, turn_of, unsigned, words_of};
use crate::pools::scene_of;
use crate::scene::{Scene, node_of};
use crate::texts::put_requests;
use location_words::Words;
use orientation::Turn;
use requests::Requests;
use sewing::{Member, SewFault, merge, sew};
use shape_pool::NodeId;
use std::alloc::Global;

/// The nodes that are named.
fn nodes_of(alloc: Global, scene: &Scene, text: &str) -> Result<Vec<NodeId>, Stop>
    ensures { IfOk result (λ ids. All (λ (m : NodeId). m.0 < length scene.now.pool) ids.items) }
{
    let mut ids = Vec::new(alloc);
    for one in text.split_whitespace() {
        ids.push(node_of(scene, one)?)?;
    }
    Ok(ids)
}

/// The edges that are named, each with its sign, which is `+` where it is left out.
fn members_of(alloc: Global, scene: &Scene, text: &str) -> Result<Vec<Member>, Stop>
    ensures { IfOk result (λ ms. All (λ (m : Member). m.id.0 < length scene.now.pool) ms.items) }
{
    let mut members = Vec::new(alloc);
    for one in text.split_whitespace() {
        let turn = turn_of(one).unwrap_or(Turn::Forward);
        let id = node_of(scene, unsigned(one))?;
        members.push(Member { id, turn })?;
    }
    Ok(members)
}

/// Writes which member fails.
fn put_member(out: &mut String, why: &str, member: usize) -> Result<(), Stop> {
    out.push_str(why)?;
    put_number(out, u64::try_from(member).unwrap_or(u64::MAX))
}

/// Writes the requests, or why there are none.
fn put_asked(
    out: &mut String,
    scene: &Scene,
    words: &Words,
    asked: &Result<Requests, SewFault>,
) -> Result<(), Stop> {
    match asked {
        Ok(asked) => put_requests(out, scene, words, asked.as_slice()),
        Err(SewFault::KindMismatch { member }) => put_member(out, "kind-mismatch ", *member),
        Err(SewFault::EndsDiffer { member }) => put_member(out, "ends-differ ", *member),
        Err(SewFault::NotEdge) => {
            out.push_str("not-edge")?;
            Ok(())
        }
        Err(SewFault::NoMemory) => Err(Stop::NoMemory),
    }
}

/// `merge 6 5 4`: the requests that make the other nodes the first one, or the member that has another kind.
pub(crate) fn merge_row(alloc: Global, held: &str, rest: &str) -> Result<String, Stop> {
    let words = words_of(alloc, held, rest)?;
    let scene = scene_of(alloc, &words, held)?;
    let (first, others) = halves(rest, ' ');
    let first = node_of(&scene, first)?;
    let members = nodes_of(alloc, &scene, others)?;
    let asked = merge(alloc, &scene.pool, first, members.as_slice());
    let mut out = String::new(alloc);
    put_asked(&mut out, &scene, &words, &asked)?;
    Ok(out)
}

/// `sew 3 -2 4`: the same of edges under signs, or the member that is no edge or has other ends.
pub(crate) fn sew_row(alloc: Global, held: &str, rest: &str) -> Result<String, Stop> {
    let words = words_of(alloc, held, rest)?;
    let scene = scene_of(alloc, &words, held)?;
    let (first, others) = halves(rest, ' ');
    let first = node_of(&scene, first)?;
    let members = members_of(alloc, &scene, others)?;
    let asked = sew(alloc, &scene.pool, first, members.as_slice());
    let mut out = String::new(alloc);
    put_asked(&mut out, &scene, &words, &asked)?;
    Ok(out)
}
