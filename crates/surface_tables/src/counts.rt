//! How many decimals the parts of a surface have.
ghost use Rattle.std.specs.Prelude.{◌≡◌, ◌<◌, ◌≤◌, ◌*◌, ◌+◌, ◌^◌, IfOk, MatchBool};
ghost use Rattle.entry_readers.specs.Takes.{Answers};
ghost use Rattle.surface_tables.specs.Counts.{per_pole, plain_size, swept_size, wrap_size};
ghost use Rattle.surface_tables.specs.Headers.{sized_at};

use crate::parts::Wrap;
use brep_tokens::{ReadCode, ReadFault, Token};
use entry_readers::{fault_at, number_due};

/// How many decimals a plane, cylinder, cone, sphere or torus has.
pub fn plain_decimals(code: u64) -> u64
    ensures { result ≡ plain_size code }
{
    match code {
        1 => 12,
        2 => 13,
        3 => 14,
        4 => 13,
        _ => 14,
    }
}

/// How many decimals an extrusion or a revolution has.
pub fn swept_decimals(code: u64) -> u64
    ensures { result ≡ swept_size code }
{
    if code == 6 { 3 } else { 6 }
}

/// How many decimals stand in front of a basis.
pub fn wrap_decimals(wrap: Wrap) -> u64
    ensures { result ≡ wrap_size wrap }
{
    match wrap {
        Wrap::Trimmed => 4,
        Wrap::Offset => 1,
    }
}

/// How many decimals a pole has, with its weight.
pub fn pole_size(urational: bool, vrational: bool) -> u64
    ensures size { result ≡ per_pole urational vrational }
    ensures small { result ≤ 4 }
{
    if urational || vrational { 4 } else { 3 }
}

/// Has the product at most 18 digits?
fn fits(a: u64, b: u64) -> bool
    ensures { MatchBool result (a * b < 10 ^ 18) (10 ^ 18 ≤ a * b) }
{
    match a.checked_mul(b) {
        Some(product) => product < 1_000_000_000_000_000_000,
        None => false,
    }
}

/// The v degree of a Bezier surface is due, whose poles stand in so many rows.
pub fn vdegree_due(rows: u64, t: &Token) -> Result<u64, ReadFault>
    ensures answer { Answers (sized_at (λ v. rows * (v + 1))) t.now result }
    ensures fits { IfOk result (λ v. rows * (v + 1) < 10 ^ 18) }
    ensures small { IfOk result (λ v. v < 10 ^ 18) }
{
    let n = number_due(t)?;
    if fits(rows, n + 1) {
        Ok(n)
    } else {
        Err(fault_at(ReadCode::TooMany, 0, 0, t))
    }
}

/// The number of v poles of a B-spline surface is due.
pub fn vpoles_due(upoles: u64, t: &Token) -> Result<u64, ReadFault>
    ensures answer { Answers (sized_at (λ v. upoles * v)) t.now result }
    ensures fits { IfOk result (λ v. upoles * v < 10 ^ 18) }
{
    let n = number_due(t)?;
    if fits(upoles, n) {
        Ok(n)
    } else {
        Err(fault_at(ReadCode::TooMany, 0, 0, t))
    }
}
