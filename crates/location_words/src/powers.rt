//! Powers of words.
ghost use Rattle.std.specs.Prelude.{◌≡◌, ◌≢◌, ◌≤◌, ◌⊎◌, ◌^◌, ◌*ℤ◌, [], ◌∷◌, None};
ghost use Rattle.std.specs.Prelude.{length, nat_abs, Err, IfErr, IfOk, OnOk};
ghost use Rattle.location_words.specs.Faults.{fault_of, fault_of_power, fault_of_times, IsDueFault};
ghost use Rattle.location_words.specs.Pairs.{power as power_of, times as times_of};

use crate::fault::MOST_POWER;
use crate::{Pair, Word, WordFault, inverse, mul};
use smallvec::SmallVec;
use std::alloc::Global;

/// The product of `p` factors `w`, or of `-p` inverses. A word of more than one pair takes at most 1,024 factors.
///
/// The one power of a word of one pair is multiplied, whatever `p`. For a longer word the products of its first factors
/// are tested one after another, and the first that is no word decides.
pub fn power(w: &Word, p: i64) -> Result<Word, WordFault>
    requires { (length w.now ≤ 1) ⊎ (nat_abs p ≤ 1024) }
    ensures ok { IfOk result (λ v. v ≡ power_of w.now p) }
    ensures within { OnOk result (fault_of_power w.now p ≡ None) }
    ensures refused { IfErr result (λ fault. IsDueFault (fault_of_power w.now p) fault) }
    ensures one_pair { length w.now ≤ 1 → result ≢ Err WordFault.NoMemory }
{
    let alloc = *w.pairs.allocator();
    let pairs = w.pairs.as_slice();
    if pairs.is_empty() {
        return Ok(Word::identity(alloc));
    }
    if pairs.len() == 1 {
        return one_pair_power(alloc, pairs[0], p);
    }
    if p >= 0 {
        return times(w, p.unsigned_abs());
    }
    match inverse(w) {
        Ok(turned) => times(&turned, p.unsigned_abs()),
        Err(_) => Err(WordFault::NoMemory),
    }
}

/// The power of a word of one pair.
fn one_pair_power(alloc: Global, pair: Pair, p: i64) -> Result<Word, WordFault>
    requires { nat_abs pair.power ≤ 2 ^ 40 }
    ensures ok { IfOk result (λ v. v ≡ power_of (pair ∷ []) p) }
    ensures within { OnOk result (fault_of (power_of (pair ∷ []) p) ≡ None) }
    ensures refused { IfErr result (λ fault. IsDueFault (fault_of (power_of (pair ∷ []) p)) fault) }
    ensures one_pair { result ≢ Err WordFault.NoMemory }
{
    let power = multiplied(pair.power, p);
    let size = power.unsigned_abs();
    if size > MOST_POWER {
        return Err(WordFault::Power(size));
    }
    if power == 0 {
        return Ok(Word::identity(alloc));
    }
    let mut pairs = SmallVec::new(alloc);
    pairs.push_reserved(Pair {
        datum: pair.datum,
        power: power as i64,
    });
    Ok(Word { pairs })
}

/// The product of two numbers, of which the first is within the limit of powers.
fn multiplied(power: i64, p: i64) -> i128
    requires { nat_abs power ≤ 2 ^ 40 }
    ensures value { result ≡ power *ℤ p }
    ensures size { nat_abs result ≤ 2 ^ 103 }
{
    i128::from(power) * i128::from(p)
}

/// The product of `n` factors.
fn times(factor: &Word, n: u64) -> Result<Word, WordFault>
    ensures ok { IfOk result (λ v. v ≡ times_of factor.now n) }
    ensures within { OnOk result (fault_of_times factor.now n ≡ None) }
    ensures refused { IfErr result (λ fault. IsDueFault (fault_of_times factor.now n) fault) }
{
    let mut product = Word::identity(*factor.pairs.allocator());
    for _ in 0..n {
        product = mul(&product, factor)?;
    }
    Ok(product)
}
