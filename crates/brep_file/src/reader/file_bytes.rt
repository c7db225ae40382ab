//! A whole file.
ghost use Rattle.brep_file.specs.FileReading.{after_zero, read_text, too_long};
ghost use Rattle.brep_file.specs.Giving.{EndGiven, FileGiven, IsReading, VersionGiven, closing, front};
ghost use Rattle.brep_file.specs.Sound.{file_limits};
ghost use Rattle.brep_tokens.specs.Scan.{words_left};
ghost use Rattle.std.specs.Prelude.{◌≡◌, IfOk, false, true};

use crate::file::File;
use crate::reader::sections::{begun_file, with_locations};
use brep_tokens::laws::scanner_gives_tokens;
use brep_tokens::{Next, ReadCode, ReadFault, ReadStop, Scanner};
use entry_readers::fault_at;
use std::alloc::{AllocError, Global};

/// A scanner that was fed these bytes and told their end.
fn scanner_of(alloc: Global, bytes: Vec<u8>) -> Result<Scanner, AllocError>
    ensures { IfOk result (λ s. s ≡ record { fed = bytes.items; at = 0; headed = false; ended = true }) }
{
    let mut s = Scanner::new(alloc);
    s.feed(&bytes)?;
    s.end();
    Ok(s)
}

/// The version of the file.
fn version(s: &mut Scanner) -> Result<u8, ReadFault>
    requires ended { s.old.ended ≡ true }
    requires start { s.old.headed ≡ false }
    ensures { VersionGiven s.old s.new result }
{
    match s.next()? {
        Next::Version(version) => Ok(version),
        Next::Token(_) | Next::NeedMore(_) | Next::End(_) => unreachable!(),
    }
}

/// Nothing is left after the closing `0`.
fn end(s: &mut Scanner) -> Result<(), ReadFault>
    requires { IsReading s.old }
    ensures { EndGiven (λ f. after_zero f (too_long (words_left s.old)) (front s.old)) result }
{
    match s.next()? {
        Next::End(_) => Ok(()),
        Next::Token(t) => Err(fault_at(ReadCode::Tail, 0, 0, &t)),
        Next::Version(_) | Next::NeedMore(_) => unreachable!(),
    }
}

/// Nothing is left after the root use, or a closing `0`.
fn closing_zero(s: &mut Scanner) -> Result<(), ReadFault>
    requires { IsReading s.old }
    ensures { EndGiven (closing s.old) result }
{
    match s.next()? {
        Next::End(_) => Ok(()),
        Next::Token(t) => {
            if t.bytes() == b"0".as_slice() {
                end(s)
            } else {
                Err(fault_at(ReadCode::Tail, 0, 0, &t))
            }
        }
        Next::Version(_) | Next::NeedMore(_) => unreachable!(),
    }
}

/// The file that the bytes spell, or the fault of the first token that isn't accepted. The bytes are let go as soon as
/// the scanner has them.
pub fn read_file(alloc: Global, bytes: Vec<u8>) -> Result<File, ReadStop>
    ensures { FileGiven result (read_text file_limits bytes.items) }
{
    scanner_gives_tokens();
    let mut s = scanner_of(alloc, bytes)?;
    let version = version(&mut s)?;
    let file = with_locations(alloc, &mut s, begun_file(alloc, version))?;
    closing_zero(&mut s)?;
    Ok(file)
}
