//! Products of words that take no memory.
ghost use Rattle.std.specs.Prelude.{◌≡◌, ◌≤◌, ◌+◌, None, Some, length, min, vec_capacity, IfErr, OnErr, OnOk};
ghost use Rattle.location_words.specs.Faults.{fault_of};
ghost use Rattle.location_words.specs.Pairs.{mul as mul_of, most_pairs, IsHeldWord};
ghost use Rattle.location_words.specs.Seams.{count_of_three, in_three};

use crate::products::{fault_of_parts, seam_of};
use crate::{Pair, Word, WordFault};

/// Puts the product of an outer and an inner word into a list that has room for it: the inner one is applied first.
///
/// It takes no memory, and its time is that of `mul`.
pub fn mul_into(outer: &[Pair], inner: &Word, room: &mut Vec<Pair>) -> Result<(), WordFault>
    requires outer { IsHeldWord outer.now }
    requires room { min most_pairs (length outer.now + length inner.now) ≤ vec_capacity room.old }
    ensures ok { OnOk result (room.new.items ≡ mul_of outer.now inner.now) }
    ensures within { OnOk result (fault_of (mul_of outer.now inner.now) ≡ None) }
    ensures held { OnOk result (IsHeldWord room.new.items) }
    ensures len { OnOk result (length room.new.items ≤ length outer.now + length inner.now) }
    ensures refused { IfErr result (λ fault. fault_of (mul_of outer.now inner.now) ≡ Some fault) }
    ensures err { OnErr result (room.new.items ≡ room.old.items) }
    ensures capacity { vec_capacity room.old ≤ vec_capacity room.new }
{
    let first = inner.pairs.as_slice();
    let seam = seam_of(first, outer);
    let kept = &first[..seam.kept];
    let rest = &outer[seam.dropped..];
    if let Some(fault) = fault_of_parts(kept, seam.joined, rest) {
        return Err(fault);
    }
    put(kept, seam.joined, rest, room);
    Ok(())
}

/// Puts the pairs of three parts, one after another, into a list that has room for them.
fn put(kept: &[Pair], middle: Option<Pair>, rest: &[Pair], room: &mut Vec<Pair>)
    requires { count_of_three (length kept.now) middle (length rest.now) ≤ vec_capacity room.old }
    ensures items { room.new.items ≡ in_three kept.now middle rest.now }
    ensures capacity { vec_capacity room.old ≤ vec_capacity room.new }
{
    room.clear();
    room.extend_from_slice(kept).unwrap();
    if let Some(pair) = middle {
        room.push_reserved(pair);
    }
    room.extend_from_slice(rest).unwrap();
}
