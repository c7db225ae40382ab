//! Products of words.
ghost use Rattle.std.specs.Prelude.{◌≡◌, ◌^◌, ◌≢◌, ◌≤◌, ◌<◌, ◌+◌, ◌-◌};
ghost use Rattle.std.specs.Prelude.{◌++◌, None, length, map, option_to_list};
ghost use Rattle.std.specs.Prelude.{sum_by, Err, IfErr, IfOk, IsOk, OnOk};
ghost use Rattle.location_words.specs.declared.pair.Pair.{Pair};
ghost use Rattle.location_words.specs.Faults.{fault_of, large_power, IsDueFault};
ghost use Rattle.location_words.specs.Pairs.{mul as mul_of, norm, AllSmall, IsHeldWord, IsWord};
ghost use Rattle.location_words.specs.Seams.{count_of_three, in_three, left_past, sewn, IsNoLonger, StopsPast};
ghost use Rattle.location_words.specs.Sums.{as_pair, IsWithin};
ghost use Rattle.location_words.specs.Products.{product as product_of};

use crate::fault::{MOST_PAIRS, MOST_POWER};
use crate::sum::{Wide, take_all, within};
use crate::{Pair, Word, WordFault};
use smallvec::SmallVec;
use std::alloc::{AllocError, Global};

/// The product of an outer and an inner word: the inner one is applied first.
///
/// The time is linear in the pairs that cancel where the words meet plus those that are copied.
pub fn mul(outer: &Word, inner: &Word) -> Result<Word, WordFault>
    ensures ok { IfOk result (λ w. w ≡ mul_of outer.now inner.now) }
    ensures within { OnOk result (fault_of (mul_of outer.now inner.now) ≡ None) }
    ensures refused { IfErr result (λ fault. IsDueFault (fault_of (mul_of outer.now inner.now)) fault) }
    ensures inline { length outer.now + length inner.now ≤ 4 → result ≢ Err WordFault.NoMemory }
{
    let first = inner.pairs.as_slice();
    let second = outer.pairs.as_slice();
    let seam = seam_of(first, second);
    joined(
        *inner.pairs.allocator(),
        &first[..seam.kept],
        seam.joined,
        &second[seam.dropped..],
    )
}

/// How two words meet: the first pairs of the one that stay, the pair that their meeting ones make, if any, and how
/// many of the other's first pairs go.
#[derive(Clone, Copy)]
pub(crate) struct Seam {
    pub(crate) kept: usize,
    pub(crate) joined: Option<Pair>,
    pub(crate) dropped: usize,
}

/// How an inner word meets an outer one.
pub(crate) fn seam_of(inner: &[Pair], outer: &[Pair]) -> Seam
    requires inner { IsHeldWord inner.now }
    requires outer { IsHeldWord outer.now }
    ensures kept { result.kept ≤ length inner.now }
    ensures dropped { result.dropped ≤ length outer.now }
    ensures shorter { IsNoLonger result inner.now outer.now }
    ensures whole { sewn result inner.now outer.now ≡ norm (inner.now ++ outer.now) }
{
    let gone = cancelled(inner, outer);
    let kept = inner.len() - gone;
    if kept > 0 && gone < outer.len() {
        let last = inner[kept - 1];
        let next = outer[gone];
        if last.datum == next.datum {
            let pair = Pair {
                datum: last.datum,
                power: last.power + next.power,
            };
            return Seam {
                kept: kept - 1,
                joined: Some(pair),
                dropped: gone + 1,
            };
        }
    }
    Seam {
        kept,
        joined: None,
        dropped: gone,
    }
}

/// How many pairs of each of the two words cancel where they meet.
fn cancelled(inner: &[Pair], outer: &[Pair]) -> usize
    requires inner { IsHeldWord inner.now }
    requires outer { IsHeldWord outer.now }
    ensures of_inner { result ≤ length inner.now }
    ensures of_outer { result ≤ length outer.now }
    ensures same { norm (left_past result inner.now outer.now) ≡ norm (inner.now ++ outer.now) }
    ensures stops { StopsPast result inner.now outer.now }
{
    let most = inner.len().min(outer.len());
    for gone in 0..most {
        let last = inner[inner.len() - gone - 1];
        let next = outer[gone];
        if last.datum != next.datum || last.power + next.power != 0 {
            return gone;
        }
    }
    most
}

/// The word of three parts, one after another, where it is within the limits.
fn joined(
    alloc: Global,
    kept: &[Pair],
    middle: Option<Pair>,
    rest: &[Pair],
) -> Result<Word, WordFault>
    requires few { (length kept.now ≤ 4096) × (length rest.now ≤ 4096) }
    requires small { AllSmall kept.now × AllSmall rest.now }
    requires word { IsWord (in_three kept.now middle rest.now) }
    ensures ok { IfOk result (λ w. w ≡ in_three kept.now middle rest.now) }
    ensures within { OnOk result (fault_of (in_three kept.now middle rest.now) ≡ None) }
    ensures refused { IfErr result (λ fault. IsDueFault (fault_of (in_three kept.now middle rest.now)) fault) }
    ensures inline { count_of_three (length kept.now) middle (length rest.now) ≤ 4 → result ≢ Err WordFault.NoMemory }
{
    if let Some(fault) = fault_of_parts(kept, middle, rest) {
        return Err(fault);
    }
    match copied(alloc, kept, middle, rest) {
        Ok(pairs) => Ok(Word { pairs }),
        Err(_) => Err(WordFault::NoMemory),
    }
}

/// Why three parts, one after another, are no word, if they aren't within the limits.
pub(crate) fn fault_of_parts(
    kept: &[Pair],
    middle: Option<Pair>,
    rest: &[Pair],
) -> Option<WordFault>
    requires few { (length kept.now ≤ 4096) × (length rest.now ≤ 4096) }
    requires small { AllSmall kept.now × AllSmall rest.now }
    ensures { result ≡ fault_of (in_three kept.now middle rest.now) }
{
    let count = kept.len() + usize::from(middle.is_some()) + rest.len();
    if count > MOST_PAIRS {
        return Some(WordFault::Pairs(count as u128));
    }
    match large_size(middle) {
        Some(size) => Some(WordFault::Power(size)),
        None => None,
    }
}

/// The size of the power of a pair, if it is past the limit.
fn large_size(middle: Option<Pair>) -> Option<u128>
    ensures { result ≡ large_power (option_to_list middle) }
{
    let size = u128::from(middle?.power.unsigned_abs());
    if size > MOST_POWER { Some(size) } else { None }
}

/// The pairs of the three parts, one after another.
fn copied(
    alloc: Global,
    kept: &[Pair],
    middle: Option<Pair>,
    rest: &[Pair],
) -> Result<SmallVec<Pair, 4>, AllocError>
    requires { count_of_three (length kept.now) middle (length rest.now) ≤ 4096 }
    ensures ok { IfOk result (λ pairs. pairs.items ≡ in_three kept.now middle rest.now) }
    ensures inline { count_of_three (length kept.now) middle (length rest.now) ≤ 4 → IsOk result }
{
    let count = kept.len() + usize::from(middle.is_some()) + rest.len();
    let mut pairs = SmallVec::with_capacity(alloc, count)?;
    pairs.extend_from_slice(kept)?;
    if let Some(pair) = middle {
        pairs.push(pair)?;
    }
    pairs.extend_from_slice(rest)?;
    Ok(pairs)
}

/// The product of words, outermost factor first, of which only the whole is tested against the limits: a product of
/// some of the factors may pass them.
pub fn product(alloc: Global, factors: &[&Word]) -> Result<Word, WordFault>
    ensures ok { IfOk result (λ w. w ≡ product_of (map (λ w. w.now) factors.now)) }
    ensures within { OnOk result (fault_of (product_of (map (λ w. w.now) factors.now)) ≡ None) }
    ensures refused { IfErr result (λ fault. IsDueFault (fault_of (product_of (map (λ w. w.now) factors.now))) fault) }
    ensures inline { sum_by (λ w. length w.now) factors.now ≤ 4 → result ≢ Err WordFault.NoMemory }
{
    match summed(alloc, factors) {
        Ok(sum) => within(alloc, sum.as_slice()),
        Err(_) => Err(WordFault::NoMemory),
    }
}

/// The reduced pairs of all factors, the innermost one's first.
fn summed(alloc: Global, factors: &[&Word]) -> Result<SmallVec<Wide, 4>, AllocError>
    ensures ok { IfOk result (λ sum. map as_pair sum.items ≡ product_of (map (λ w. w.now) factors.now)) }
    ensures fits { IfOk result (λ sum. IsWithin (2 ^ 126) sum.items) }
    ensures len { IfOk result (λ sum. length sum.items ≤ sum_by (λ w. length w.now) factors.now) }
    ensures inline { sum_by (λ w. length w.now) factors.now ≤ 4 → IsOk result }
{
    let mut sum = SmallVec::new(alloc);
    for i in 0..factors.len() {
        let factor = factors[factors.len() - 1 - i];
        take_all(&mut sum, factor.pairs.as_slice())?;
    }
    Ok(sum)
}
