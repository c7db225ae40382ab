//! The ends of edges.
ghost use Rattle.std.specs.Prelude.{◌≡◌, ◌<◌, ◌↔◌, IfOk, IsPermutation, IsSorted, IsTrue, Some, length, slice_get};
ghost use Rattle.orientation.specs.declared.turn.Turn.TheVariants.{Forward};
ghost use Rattle.shape_pool.specs.Rows.{uses_at};
ghost use Rattle.sewing.specs.Asked.{turned, HaveSameEnds};
ghost use Rattle.sewing.specs.Keys.{key_cmp, key_of, keys_at, number_of};

use crate::member::Member;
use orientation::{Turn, compose};
use shape_pool::{NodeId, Pool, UseOf};
use std::alloc::{AllocError, Global};

/// The number of a turn.
fn turn_number(turn: Turn) -> u8
    ensures { result ≡ number_of turn }
{
    match turn {
        Turn::Forward => 0,
        Turn::Reversed => 1,
        Turn::Internal => 2,
        Turn::External => 3,
    }
}

/// How many uses a node has.
fn use_count(pool: &Pool, id: NodeId) -> usize
    requires { id.0 < length pool.now }
    ensures { result ≡ length (uses_at pool.now id.0) }
{
    pool.node(id).uses.len()
}

/// A use of a node by number, uses being counted from 0.
fn use_of(pool: &Pool, id: NodeId, at: usize) -> UseOf
    requires id { id.0 < length pool.now }
    requires at { at < length (uses_at pool.now id.0) }
    ensures { slice_get (uses_at pool.now id.0) at ≡ Some result }
{
    let one = &pool.node(id).uses[at];
    UseOf {
        turn: one.turn,
        place: one.place,
        id: one.node.id,
    }
}

/// A use under a sign as the numbers of its turn, its word and its node.
fn key(sign: Turn, one: UseOf) -> (u8, usize, u32)
    ensures { result ≡ key_of (turned sign one) }
{
    let turn = compose(sign, one.turn);
    (turn_number(turn), one.place.0, one.id.0)
}

/// The uses of a node under a sign.
fn keys_of(
    alloc: Global,
    pool: &Pool,
    sign: Turn,
    id: NodeId,
) -> Result<Vec<(u8, usize, u32)>, AllocError>
    requires { id.0 < length pool.now }
    ensures { IfOk result (λ keys. keys.items ≡ keys_at pool.now sign id.0) }
{
    let mut keys = Vec::new(alloc);
    for at in 0..use_count(pool, id) {
        let one = use_of(pool, id, at);
        keys.push(key(sign, one))?;
    }
    Ok(keys)
}

/// The ends of an edge under a sign, in order.
pub(crate) fn sorted_ends(
    alloc: Global,
    pool: &Pool,
    sign: Turn,
    id: NodeId,
) -> Result<Vec<(u8, usize, u32)>, AllocError>
    requires { id.0 < length pool.now }
    ensures same { IfOk result (λ keys. IsPermutation (keys_at pool.now sign id.0) keys.items) }
    ensures order { IfOk result (λ keys. IsSorted key_cmp keys.items) }
{
    let mut keys = keys_of(alloc, pool, sign, id)?;
    keys.sort_unstable();
    Ok(keys)
}

/// Whether a member under its turn has the ends of the first one, which are given in order.
pub(crate) fn has_ends(
    alloc: Global,
    pool: &Pool,
    first: NodeId,
    ends: &[(u8, usize, u32)],
    member: Member,
) -> Result<bool, AllocError>
    requires first { first.0 < length pool.now }
    requires member { member.id.0 < length pool.now }
    requires same { IsPermutation (keys_at pool.now Forward first.0) ends.now }
    requires order { IsSorted key_cmp ends.now }
    ensures { IfOk result (λ same. IsTrue same ↔ HaveSameEnds pool.now first.0 member.turn member.id.0) }
{
    let own = sorted_ends(alloc, pool, member.turn, member.id)?;
    Ok(own.as_slice() == ends)
}
