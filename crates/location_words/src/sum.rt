//! Sums of pairs that aren't tested against the limits yet.
ghost use Rattle.std.specs.Prelude.{◌≡◌, ◌≢◌, ◌≤◌, ◌+◌, ◌^◌, None, length, map};
ghost use Rattle.std.specs.Prelude.{fold, nat_abs, Err, IfErr, IfOk, IsOk, OnOk};
ghost use Rattle.smallvec.specs.SmallVec.{HasRoomFor, small_vec_len};
ghost use Rattle.location_words.specs.Faults.{fault_of, large_power as large_power_of, IsDueFault};
ghost use Rattle.location_words.specs.Pairs.{norm, taken_onto};
ghost use Rattle.location_words.specs.Sums.{as_pair, from_last, GrowsBy, GrowsByAll, IsWithin};

use crate::fault::{MOST_PAIRS, MOST_POWER};
use crate::{Pair, Word, WordFault};
use smallvec::SmallVec;
use std::alloc::{AllocError, Global};

/// A power of a datum in a sum that isn't tested yet.
#[derive(Clone, Copy, Default)]
pub(crate) struct Wide {
    pub(crate) datum: u32,
    pub(crate) power: i128,
}

/// Takes one more pair onto the end of the reduced pairs so far.
fn take_onto(so_far: &mut SmallVec<Wide, 4>, p: Pair) -> Result<(), AllocError>
    requires { IsWithin (2 ^ 126) so_far.old.items }
    ensures ok { OnOk result (from_last so_far.new.items ≡ taken_onto (from_last so_far.old.items) p) }
    ensures grows { OnOk result (GrowsBy (nat_abs p.power) so_far.old.items so_far.new.items) }
    ensures size { nat_abs p.power ≤ 2 ^ 63 }
    ensures room { HasRoomFor so_far.old 1 → IsOk result }
    ensures len { small_vec_len so_far.new ≤ small_vec_len so_far.old + 1 }
    ensures capacity { so_far.old.capacity ≤ so_far.new.capacity }
{
    if p.power == 0 {
        return Ok(());
    }
    let power = i128::from(p.power);
    match so_far.pop() {
        None => so_far.push(Wide {
            datum: p.datum,
            power,
        })?,
        Some(last) => {
            if last.datum == p.datum {
                let sum = last.power + power;
                if sum != 0 {
                    so_far.push(Wide {
                        datum: last.datum,
                        power: sum,
                    })?;
                }
            } else {
                so_far.push(last)?;
                so_far.push(Wide {
                    datum: p.datum,
                    power,
                })?;
            }
        }
    }
    Ok(())
}

/// Takes pairs, from first to last, onto the end of the reduced pairs so far.
pub(crate) fn take_all(so_far: &mut SmallVec<Wide, 4>, pairs: &[Pair]) -> Result<(), AllocError>
    requires small { IsWithin (2 ^ 125) so_far.old.items }
    requires few { length pairs.now ≤ 2 ^ 59 }
    ensures ok { OnOk result (from_last so_far.new.items ≡ fold taken_onto (from_last so_far.old.items) pairs.now) }
    ensures grows { OnOk result (GrowsByAll pairs.now so_far.old.items so_far.new.items) }
    ensures fits { OnOk result (IsWithin (2 ^ 126) so_far.new.items) }
    ensures room { HasRoomFor so_far.old (length pairs.now) → IsOk result }
    ensures len { small_vec_len so_far.new ≤ small_vec_len so_far.old + length pairs.now }
    ensures capacity { so_far.old.capacity ≤ so_far.new.capacity }
{
    for p in pairs {
        take_onto(so_far, *p)?;
    }
    Ok(())
}

/// The word of reduced pairs, where they are within the limits.
pub(crate) fn within(alloc: Global, reduced: &[Wide]) -> Result<Word, WordFault>
    requires reduced { norm (map as_pair reduced.now) ≡ map as_pair reduced.now }
    requires fits { IsWithin (2 ^ 126) reduced.now }
    ensures ok { IfOk result (λ w. w ≡ map as_pair reduced.now) }
    ensures within { OnOk result (fault_of (map as_pair reduced.now) ≡ None) }
    ensures refused { IfErr result (λ fault. IsDueFault (fault_of (map as_pair reduced.now)) fault) }
    ensures inline { length reduced.now ≤ 4 → result ≢ Err WordFault.NoMemory }
{
    if reduced.len() > MOST_PAIRS {
        return Err(WordFault::Pairs(reduced.len() as u128));
    }
    if let Some(size) = large_power(reduced) {
        return Err(WordFault::Power(size));
    }
    match narrowed(alloc, reduced) {
        Ok(pairs) => Ok(Word { pairs }),
        Err(_) => Err(WordFault::NoMemory),
    }
}

/// The size of the innermost power past the limit.
fn large_power(sum: &[Wide]) -> Option<u128>
    requires { IsWithin (2 ^ 126) sum.now }
    ensures { result ≡ large_power_of (map as_pair sum.now) }
{
    for q in sum {
        let size = q.power.unsigned_abs();
        if size > MOST_POWER {
            return Some(size);
        }
    }
    None
}

/// The pairs of a sum whose powers are within the limit.
fn narrowed(alloc: Global, sum: &[Wide]) -> Result<SmallVec<Pair, 4>, AllocError>
    requires { IsWithin (2 ^ 40) sum.now }
    ensures ok { IfOk result (λ pairs. pairs.items ≡ map as_pair sum.now) }
    ensures inline { length sum.now ≤ 4 → IsOk result }
{
    let mut pairs = SmallVec::new(alloc);
    for q in sum {
        pairs.push(Pair {
            datum: q.datum,
            power: q.power as i64,
        })?;
    }
    Ok(pairs)
}
