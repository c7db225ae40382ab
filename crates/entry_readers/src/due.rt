//! The token that is due, of one form.
ghost use Rattle.std.specs.Prelude.{◌≡◌, ◌<◌, ◌≤◌, ◌^◌, IfOk};
ghost use Rattle.entry_readers.specs.Reading.{at_token, decimal_at, flag_at, number_at, ranged_at, word_at};
ghost use Rattle.entry_readers.specs.Takes.{Accepts, Answers};

use brep_tokens::{ReadCode, ReadFault, Token, decimal, flag, number};

/// A fault at a token.
pub fn fault_at(code: ReadCode, value: u64, limit: u64, t: &Token) -> ReadFault
    ensures { result ≡ at_token code value limit t.now }
{
    ReadFault {
        code,
        offset: t.offset,
        value,
        limit,
    }
}

/// A given word is due.
pub fn word_due(word: &[u8], t: &Token) -> Result<(), ReadFault>
    ensures { Accepts (word_at word.now) t.now tt result }
{
    if t.bytes() == word {
        Ok(())
    } else {
        Err(fault_at(ReadCode::WordExpected, 0, 0, t))
    }
}

/// A decimal is due.
pub fn decimal_due(t: &Token) -> Result<(), ReadFault>
    ensures { Accepts decimal_at t.now t.now.text result }
{
    if decimal(t.bytes()) {
        Ok(())
    } else {
        Err(fault_at(ReadCode::DecimalExpected, 0, 0, t))
    }
}

/// A number is due.
pub fn number_due(t: &Token) -> Result<u64, ReadFault>
    ensures answer { Answers number_at t.now result }
    ensures small { IfOk result (λ n. n < 10 ^ 18) }
{
    match number(t.bytes()) {
        Some(n) => Ok(n),
        None => Err(fault_at(ReadCode::NumberExpected, 0, 0, t)),
    }
}

/// A flag is due.
pub fn flag_due(t: &Token) -> Result<bool, ReadFault>
    ensures { Answers flag_at t.now result }
{
    match flag(t.bytes()) {
        Some(b) => Ok(b),
        None => Err(fault_at(ReadCode::FlagExpected, 0, 0, t)),
    }
}

/// A number from `low` to `high` is due: that of an entry, a node or a record.
pub fn ranged_due(low: u64, high: u64, t: &Token) -> Result<u64, ReadFault>
    ensures answer { Answers (ranged_at low high) t.now result }
    ensures from { IfOk result (λ n. low ≤ n) }
    ensures to { IfOk result (λ n. n ≤ high) }
{
    let n = number_due(t)?;
    if low <= n && n <= high {
        Ok(n)
    } else {
        Err(fault_at(ReadCode::IndexOutOfRange, n, high, t))
    }
}
