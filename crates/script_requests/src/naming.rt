//! The nodes for which names stand.
ghost use Rattle.std.specs.Prelude.{◌≡◌, ◌<◌, ◌≤◌, ◌∷◌, [], All, IfErr, IfOk, OnOk, length, map, reverse};
ghost use Rattle.std.specs.List.Sorted.{IsStrictlySortedBy};
ghost use Rattle.shape_pool.specs.Calls.{IsLoaded, IsLoadedAs};
ghost use Rattle.step_history.specs.Numbered.{pair_cmp};
ghost use Rattle.script_requests.specs.Named.{id_of, AreNamed, AreNumbersNamed, AreVersionsHeld, IsVersionHeld};
ghost use Rattle.script_requests.specs.Named.{AreNext, ArePairsOf, IsImageOfNumber, IsImageOfOne, MeetsToo, PartsAt};
ghost use Rattle.script_requests.specs.Numbered.{NameMany, OrWants};

use crate::fault::{AskFault, ScriptCode, refused};
use crate::version::Version;
use shape_pool::{Ids, NodeId, Pool};
use std::alloc::{AllocError, Global};
use step_history::Met;

/// The place from which on the first numbers of pairs in ascending order aren't below a number.
fn first_at(pairs: &[(NodeId, NodeId)], id: u32) -> usize
    requires order { IsStrictlySortedBy pair_cmp pairs.now }
    ensures within { result ≤ length pairs.now }
    ensures parts { PartsAt (λ n. n < id) pairs.now result }
{
    pairs.partition_point(|pair| pair.0.0 < id)
}

/// The place from which on they are above a number.
fn first_past(pairs: &[(NodeId, NodeId)], id: u32) -> usize
    requires order { IsStrictlySortedBy pair_cmp pairs.now }
    ensures within { result ≤ length pairs.now }
    ensures parts { PartsAt (λ n. n ≤ id) pairs.now result }
{
    pairs.partition_point(|pair| pair.0.0 <= id)
}

/// The pairs in which a number comes first.
fn pairs_of(pairs: &[(NodeId, NodeId)], id: u32) -> &[(NodeId, NodeId)]
    requires order { IsStrictlySortedBy pair_cmp pairs.now }
    ensures { ArePairsOf pairs.now id result.now }
{
    let from = first_at(pairs, id);
    let to = first_past(pairs, id);
    &pairs[from..to]
}

/// Meets a number.
fn meet(met: &mut Met, id: u32) -> Result<(), AllocError>
    ensures { OnOk result (MeetsToo (λ i. id ≡ i) met.old met.new) }
{
    if met.has(id) {
        return Ok(());
    }
    met.note(id)?;
    Ok(())
}

/// Meets the images of a number.
fn meet_images(pairs: &[(NodeId, NodeId)], id: u32, met: &mut Met) -> Result<(), AllocError>
    requires order { IsStrictlySortedBy pair_cmp pairs.now }
    ensures { OnOk result (MeetsToo (IsImageOfNumber pairs.now id) met.old met.new) }
{
    let own = pairs_of(pairs, id);
    for pair in own {
        meet(met, pair.1.0)?;
    }
    Ok(())
}

/// The images of numbers, each once.
fn images_of(alloc: Global, pairs: &[(NodeId, NodeId)], ids: &[u32]) -> Result<Met, AllocError>
    requires order { IsStrictlySortedBy pair_cmp pairs.now }
    ensures { IfOk result (MeetsToo (IsImageOfOne pairs.now ids.now) []) }
{
    let mut met = Met::new(alloc);
    for id in ids {
        meet_images(pairs, *id, &mut met)?;
    }
    Ok(met)
}

/// The images of numbers, each once, or where they have none, another number.
fn next_of(
    alloc: Global,
    pairs: &[(NodeId, NodeId)],
    ids: &[u32],
    own: u32,
) -> Result<Met, AllocError>
    requires order { IsStrictlySortedBy pair_cmp pairs.now }
    ensures { IfOk result (AreNext pairs.now ids.now own) }
{
    let mut met = images_of(alloc, pairs, ids)?;
    if met.len() == 0 {
        meet(&mut met, own)?;
    }
    Ok(met)
}

/// Numbers of nodes as a list.
fn ids_of(alloc: Global, numbers: &[u32]) -> Result<Ids, AllocError>
    ensures { IfOk result (λ ids. ids ≡ map id_of numbers.now) }
{
    let mut ids = Ids::new(alloc);
    for number in numbers {
        ids.push(NodeId(*number))?;
    }
    Ok(ids)
}

/// The nodes for which a name stands after the versions, each once.
pub(crate) fn nodes_named(
    alloc: Global,
    pool: &Pool,
    versions: &[Version],
    name: u32,
) -> Result<Ids, AllocError>
    requires name { IsLoaded pool.now name }
    requires versions { AreVersionsHeld pool.now versions.now }
    ensures { IfOk result (AreNamed pool.now (reverse versions.now) name) }
{
    let Some(own) = pool.named(name) else {
        unreachable!()
    };
    let mut met = Met::new(alloc);
    meet(&mut met, own.0)?;
    for version in versions {
        let next = next_of(alloc, version.images.as_slice(), met.as_slice(), own.0)?;
        met = next;
    }
    let ids = ids_of(alloc, met.as_slice())?;
    Ok(ids)
}

/// The node for which a name stands, where it is one alone.
pub(crate) fn one_named(
    alloc: Global,
    pool: &Pool,
    versions: &[Version],
    name: u32,
    line: u64,
) -> Result<NodeId, AskFault>
    requires name { IsLoaded pool.now name }
    requires versions { AreVersionsHeld pool.now versions.now }
    ensures only { IfOk result (λ id. AreNamed pool.now (reverse versions.now) name (id ∷ [])) }
    ensures many { IfErr result (OrWants (NameMany pool.now (reverse versions.now) line name)) }
{
    let named = nodes_named(alloc, pool, versions, name)?;
    let ids = named.as_slice();
    if ids.len() != 1 {
        let many = ids.len() as u64;
        return Err(refused(line, ScriptCode::ManyImages, u64::from(name), many));
    }
    Ok(ids[0])
}
