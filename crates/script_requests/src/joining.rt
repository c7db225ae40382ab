//! What `merge` and `sew` ask.
ghost use Rattle.std.specs.Prelude.{◌≡◌, ◌<◌, ◌≤◌, ◌++◌, ◌∷◌, [], All, IfErr, IfOk, OnOk, length, map, reverse};
ghost use Rattle.sewing.specs.Refused.{CanBeSewn, IsEdge};
ghost use Rattle.shape_pool.specs.Calls.{IsLoaded};
ghost use Rattle.script_requests.specs.Asking.{under_no_sign};
ghost use Rattle.script_requests.specs.Named.{AreVersionsHeld};
ghost use Rattle.script_requests.specs.Numbered.{AreMembersNamed, CanBeMerged, JoinsAll, MergesNames, SewsNames};
ghost use Rattle.script_requests.specs.Numbered.{IsMergeRefused, IsSewRefused, MergeFails, OrWants, SewFails, fault_by};

use crate::fault::{AskFault, ScriptCode, refused};
use crate::naming::{nodes_named, one_named};
use crate::version::Version;
use requests::{Request, Requests};
use script_text::SignedName;
use sewing::{Member, SewFault, merge, sew};
use shape_pool::{NodeId, Pool};
use std::alloc::{AllocError, Global};

/// The fault of a further name of a list, by that of one of its members.
fn fault_of(line: u64, first: u32, name: u32, fault: SewFault) -> AskFault
    ensures { result ≡ fault_by line first name fault }
{
    let (first, name) = (u64::from(first), u64::from(name));
    match fault {
        SewFault::KindMismatch { member: _ } => {
            refused(line, ScriptCode::KindMismatch, first, name)
        }
        SewFault::NotEdge => refused(line, ScriptCode::KindMismatch, first, first),
        SewFault::EndsDiffer { member: _ } => refused(line, ScriptCode::EndsDiffer, first, name),
        SewFault::NoMemory => AskFault::NoMemory,
    }
}

/// Adds further requests.
fn add_all(asked: &mut Requests, more: &[Request]) -> Result<(), AllocError>
    ensures { OnOk result (asked.new ≡ asked.old ++ more.now) }
{
    for request in more {
        asked.push(*request)?;
    }
    Ok(())
}

/// The requests that merge the nodes of one further name with that of the first name.
fn merge_one(
    alloc: Global,
    pool: &Pool,
    versions: &[Version],
    first: NodeId,
    own: u32,
    name: u32,
    line: u64,
) -> Result<Requests, AskFault>
    requires first { first.0 < length pool.now }
    requires name { IsLoaded pool.now name }
    requires versions { AreVersionsHeld pool.now versions.now }
    ensures asked { IfOk result
        (JoinsAll pool.now (reverse versions.now) (CanBeMerged pool.now first) first (under_no_sign (name ∷ []))) }
    ensures refused { IfErr result
        (OrWants (MergeFails pool.now (reverse versions.now) line first own (under_no_sign (name ∷ [])))) }
{
    let members = nodes_named(alloc, pool, versions, name)?;
    match merge(alloc, pool, first, members.as_slice()) {
        Ok(asked) => Ok(asked),
        Err(fault) => Err(fault_of(line, own, name, fault)),
    }
}

/// And those of all further names, name by name.
fn merge_all(
    alloc: Global,
    pool: &Pool,
    versions: &[Version],
    first: NodeId,
    own: u32,
    further: &[u32],
    line: u64,
) -> Result<Requests, AskFault>
    requires first { first.0 < length pool.now }
    requires names { All (IsLoaded pool.now) further.now }
    requires versions { AreVersionsHeld pool.now versions.now }
    ensures asked { IfOk result
        (JoinsAll pool.now (reverse versions.now) (CanBeMerged pool.now first) first (under_no_sign further.now)) }
    ensures refused { IfErr result
        (OrWants (MergeFails pool.now (reverse versions.now) line first own (under_no_sign further.now))) }
{
    let mut asked = Requests::new(alloc);
    for name in further {
        let more = merge_one(alloc, pool, versions, first, own, *name, line)?;
        add_all(&mut asked, more.as_slice())?;
    }
    Ok(asked)
}

/// The requests that `merge` makes, of a first name and further ones: that the shapes of the further names become the
/// one of the first name.
pub fn merging(
    alloc: Global,
    pool: &Pool,
    versions: &[Version],
    names: &[u32],
    line: u64,
) -> Result<Requests, AskFault>
    requires some { 1 ≤ length names.now }
    requires names { All (IsLoaded pool.now) names.now }
    requires versions { AreVersionsHeld pool.now versions.now }
    ensures asked { IfOk result (MergesNames pool.now (reverse versions.now) names.now) }
    ensures refused { IfErr result (OrWants (IsMergeRefused pool.now (reverse versions.now) line names.now)) }
{
    let own = names[0];
    let further = &names[1..];
    let first = one_named(alloc, pool, versions, own, line)?;
    let asked = merge_all(alloc, pool, versions, first, own, further, line)?;
    Ok(asked)
}

/// The nodes of a name under its turn.
fn members_of(
    alloc: Global,
    pool: &Pool,
    versions: &[Version],
    name: SignedName,
) -> Result<Vec<Member>, AllocError>
    requires name { IsLoaded pool.now name.name }
    requires versions { AreVersionsHeld pool.now versions.now }
    ensures { IfOk result (λ members. AreMembersNamed pool.now (reverse versions.now) name members.items) }
{
    let named = nodes_named(alloc, pool, versions, name.name)?;
    let ids = named.as_slice();
    let mut members = Vec::new(alloc);
    for id in ids {
        members.push(Member {
            id: *id,
            turn: name.turn,
        })?;
    }
    Ok(members)
}

/// The requests that sew the edges of one further name to that of the first name.
fn sew_one(
    alloc: Global,
    pool: &Pool,
    versions: &[Version],
    first: NodeId,
    own: u32,
    name: SignedName,
    line: u64,
) -> Result<Requests, AskFault>
    requires first { first.0 < length pool.now }
    requires name { IsLoaded pool.now name.name }
    requires versions { AreVersionsHeld pool.now versions.now }
    ensures edge { IfOk result (λ _. IsEdge pool.now first) }
    ensures asked { IfOk result
        (JoinsAll pool.now (reverse versions.now) (CanBeSewn pool.now first) first (name ∷ [])) }
    ensures refused { IfErr result
        (OrWants (SewFails pool.now (reverse versions.now) line first own (name ∷ []))) }
{
    let members = members_of(alloc, pool, versions, name)?;
    match sew(alloc, pool, first, members.as_slice()) {
        Ok(asked) => Ok(asked),
        Err(fault) => Err(fault_of(line, own, name.name, fault)),
    }
}

/// And those of all further names, name by name.
fn sew_all(
    alloc: Global,
    pool: &Pool,
    versions: &[Version],
    first: NodeId,
    own: u32,
    further: &[SignedName],
    line: u64,
) -> Result<Requests, AskFault>
    requires first { first.0 < length pool.now }
    requires some { 1 ≤ length further.now }
    requires names { All (λ (n : SignedName). IsLoaded pool.now n.name) further.now }
    requires versions { AreVersionsHeld pool.now versions.now }
    ensures edge { IfOk result (λ _. IsEdge pool.now first) }
    ensures asked { IfOk result
        (JoinsAll pool.now (reverse versions.now) (CanBeSewn pool.now first) first further.now) }
    ensures refused { IfErr result
        (OrWants (SewFails pool.now (reverse versions.now) line first own further.now)) }
{
    let mut asked = Requests::new(alloc);
    for name in further {
        let more = sew_one(alloc, pool, versions, first, own, *name, line)?;
        add_all(&mut asked, more.as_slice())?;
    }
    Ok(asked)
}

/// The requests that `sew` makes, of a first name and further ones: that the edges of the further names become the one
/// of the first name, each under its turn.
pub fn sewing_of(
    alloc: Global,
    pool: &Pool,
    versions: &[Version],
    names: &[SignedName],
    line: u64,
) -> Result<Requests, AskFault>
    requires some { 2 ≤ length names.now }
    requires names { All (λ (n : SignedName). IsLoaded pool.now n.name) names.now }
    requires versions { AreVersionsHeld pool.now versions.now }
    ensures asked { IfOk result (SewsNames pool.now (reverse versions.now) names.now) }
    ensures refused { IfErr result (OrWants (IsSewRefused pool.now (reverse versions.now) line names.now)) }
{
    let own = names[0].name;
    let further = &names[1..];
    let first = one_named(alloc, pool, versions, own, line)?;
    let asked = sew_all(alloc, pool, versions, first, own, further, line)?;
    Ok(asked)
}
