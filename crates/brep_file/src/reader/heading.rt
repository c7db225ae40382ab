//! The count of a section's entries.
ghost use Rattle.brep_file.specs.SectionReading.{count_at};
ghost use Rattle.entry_readers.specs.Takes.{Answers};
ghost use Rattle.std.specs.Prelude.{◌≤◌, IfOk};

use brep_tokens::{ReadCode, ReadFault, Token};
use entry_readers::{fault_at, number_due};

/// The count of a section's entries is due, at most `most`.
pub(crate) fn count_due(most: u64, t: &Token) -> Result<u64, ReadFault>
    ensures answer { Answers (count_at most) t.now result }
    ensures within { IfOk result (λ n. n ≤ most) }
{
    let count = number_due(t)?;
    if count <= most {
        Ok(count)
    } else {
        Err(fault_at(ReadCode::TooMany, count, most, t))
    }
}
