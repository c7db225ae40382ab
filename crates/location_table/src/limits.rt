//! The limits that are tested at the power of a factor.
ghost use Rattle.std.specs.Prelude.{◌≡◌, ◌≤◌, ◌⊎◌, ◌-◌, ◌^◌, min, length, nat_abs, None, IfErr, IfOk, OnOk};
ghost use Rattle.entry_readers.specs.Takes.{Answers};
ghost use Rattle.location_words.specs.Pairs.{mul as mul_of, power as power_of};
ghost use Rattle.location_words.specs.Faults.{fault_of, fault_of_power, IsDueFault};
ghost use Rattle.location_table.specs.Limits.{factor_fault, has_many_factors, passed};
ghost use Rattle.location_table.specs.Locations.{signed_at};
ghost use Rattle.location_table.specs.Stops.{stop_of, IsDueStop};

use brep_tokens::{ReadCode, ReadFault, ReadStop, Token, power as spelled_power};
use entry_readers::fault_at;
use location_words::{MOST_PAIRS, MOST_POWER, Word, WordFault, mul, power};

/// How many factors a power of a word of more than one pair has at most.
const MOST_FACTORS: u64 = 1_024;

/// A power is due.
pub(crate) fn power_due(t: &Token) -> Result<i64, ReadFault>
    ensures { Answers signed_at t.now result }
{
    match spelled_power(t.bytes()) {
        Some(p) => Ok(p),
        None => Err(fault_at(ReadCode::NumberExpected, 0, 0, t)),
    }
}

/// The number, or the last one of 64 bits where it is greater.
fn saturated(n: u128) -> u64
    ensures { result ≡ min n (2 ^ 64 - 1) }
{
    u64::try_from(n).unwrap_or(u64::MAX)
}

/// Why a reader stops where a word is refused.
fn stop(fault: WordFault, t: &Token) -> ReadStop
    ensures { result ≡ stop_of t.now fault }
{
    match fault {
        WordFault::Pairs(n) => {
            ReadStop::Fault(fault_at(ReadCode::WordLimit, saturated(n), MOST_PAIRS as u64, t))
        }
        WordFault::Power(n) => {
            ReadStop::Fault(fault_at(ReadCode::WordLimit, saturated(n), MOST_POWER as u64, t))
        }
        WordFault::NoMemory => ReadStop::NoMemory,
    }
}

/// Whether a word of more than one pair has too many factors.
fn many_factors(v: &Word, p: i64) -> bool
    ensures { result ≡ has_many_factors v.now p }
{
    v.pairs().len() > 1 && p.unsigned_abs() > MOST_FACTORS
}

/// The word so far with a factor: the word `v` to the power `p`.
pub(crate) fn factor_onto(so_far: &Word, v: &Word, p: i64) -> Result<Word, WordFault>
    requires { (length v.now ≤ 1) ⊎ (nat_abs p ≤ 1024) }
    ensures ok { IfOk result (λ w. w ≡ mul_of (power_of v.now p) so_far.now) }
    ensures power { OnOk result (fault_of_power v.now p ≡ None) }
    ensures word { OnOk result (fault_of (mul_of (power_of v.now p) so_far.now) ≡ None) }
    ensures refused { IfErr result (λ fault. IsDueFault (factor_fault so_far.now v.now p) fault) }
{
    let factor = power(v, p)?;
    mul(&factor, so_far)
}

/// The same for the power at a token, where the first limit that is passed is told.
pub(crate) fn factor_at(so_far: &Word, v: &Word, p: i64, t: &Token) -> Result<Word, ReadStop>
    ensures ok { IfOk result (λ w. w ≡ mul_of (power_of v.now p) so_far.now) }
    ensures factors { OnOk result ((length v.now ≤ 1) ⊎ (nat_abs p ≤ 1024)) }
    ensures power { OnOk result (fault_of_power v.now p ≡ None) }
    ensures word { OnOk result (fault_of (mul_of (power_of v.now p) so_far.now) ≡ None) }
    ensures within { OnOk result (passed so_far.now v.now p ≡ None) }
    ensures refused { IfErr result (λ stop. IsDueStop t.now (passed so_far.now v.now p) stop) }
{
    if many_factors(v, p) {
        let size = p.unsigned_abs();
        return Err(ReadStop::Fault(fault_at(ReadCode::WordLimit, size, MOST_FACTORS, t)));
    }
    match factor_onto(so_far, v, p) {
        Ok(w) => Ok(w),
        Err(fault) => Err(stop(fault, t)),
    }
}
