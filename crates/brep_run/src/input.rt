//! Reads the inputs of a run: a file, and the script that goes with it.
ghost use Rattle.std.specs.Prelude.{◌≡◌, ◌≤◌, ◌<◌, ◌-◌, ◌^◌, IfErr, IfOk, IsTrue, OnOk, length};
ghost use Rattle.brep_desk.specs.Strays.{NoStrayOnHeld};
ghost use Rattle.brep_desk.specs.Transfers.{IsAllHeld, NothingWritten, NoMoreOpen};
ghost use Rattle.brep_desk.specs.WritingCalls.{KeepsWritingCalls};
ghost use Rattle.brep_file.specs.Sound.{IsWithinLimits, IsSound};
ghost use Rattle.brep_writer.specs.Copies.{IsOfFewBytes};
ghost use Rattle.brep_run.specs.Inputs.{IsBytesStop, IsInputStop, IsScriptStop};
ghost use Rattle.brep_run.specs.Rewrite.{HoldsFile, HoldsScript, most_script_lines};
ghost use Rattle.script_text.specs.Lines.{script_lines};

use crate::outcome::Outcome;
use brep_desk::{Desk, ReadAll, read_all};
use brep_file::laws::reading_is_exact;
use brep_file::{File, read_file};
use brep_tokens::ReadStop;
use key_results::LimitKind;
use script_text::line_count;
use std::alloc::Global;

/// The greatest number of bytes of a file that is read.
const FILE_BYTES: u64 = 67_108_864;

/// The greatest number of bytes of a script.
const SCRIPT_BYTES: u64 = 4_194_304;

/// The greatest number of lines of a script.
const SCRIPT_LINES: u64 = 65_536;

/// Reads all bytes that the name holds, which may be so many.
fn read_bytes<D: Desk>(
    alloc: Global,
    desk: &mut D,
    name: &str,
    which: LimitKind,
    most: u64,
) -> Result<Vec<u8>, Outcome>
    requires { most < 2 ^ 64 - 1 }
    ensures later { D.faults desk.old ≤ D.faults desk.new }
    ensures quiet { NothingWritten D.tells (D.shows desk.old) (D.shows desk.new) }
    ensures writing_calls { KeepsWritingCalls D.tells (D.shows desk.old) (D.shows desk.new) }
    ensures whole { IfOk result (λ bytes. IsAllHeld D.tells (D.shows desk.old) name.now most bytes.items) }
    ensures stop { IfErr result (IsBytesStop D.tells (D.shows desk.old) name.now which most
        (D.faults desk.old) (D.faults desk.new)) }
    ensures closes { OnOk result (IsTrue D.tells.opened → NoMoreOpen (D.shows desk.old) (D.shows desk.new)) }
    ensures strays { NoStrayOnHeld D.tells (D.shows desk.old) (D.shows desk.new) name.now }
{
    let before = desk.faults();
    match read_all(alloc, desk, name, most) {
        Ok(bytes) => Ok(bytes),
        Err(ReadAll::Failed) => Err(Outcome::ReadDesk {
            before,
            after: desk.faults(),
        }),
        Err(ReadAll::TooLong) => Err(Outcome::Limit {
            which,
            count: most as u128 + 1,
        }),
        Err(ReadAll::NoMemory) => Err(Outcome::NoMemory),
    }
}

/// Reads the file that the name holds. Its bytes are let go as soon as they are read.
pub(crate) fn read_input<D: Desk>(
    alloc: Global,
    desk: &mut D,
    source: &str,
) -> Result<File, Outcome>
    ensures later { D.faults desk.old ≤ D.faults desk.new }
    ensures quiet { NothingWritten D.tells (D.shows desk.old) (D.shows desk.new) }
    ensures writing_calls { KeepsWritingCalls D.tells (D.shows desk.old) (D.shows desk.new) }
    ensures read { IfOk result (λ file. IsTrue D.tells.held → HoldsFile (D.shows desk.old) source.now file) }
    ensures sound { IfOk result (λ file. IsSound file) }
    ensures small { IfOk result (λ file. IsWithinLimits file) }
    ensures few { IfOk result (λ file. IsOfFewBytes file) }
    ensures stop { IfErr result (IsInputStop D.tells (D.shows desk.old) source.now
        (D.faults desk.old) (D.faults desk.new)) }
    ensures closes { OnOk result (IsTrue D.tells.opened → NoMoreOpen (D.shows desk.old) (D.shows desk.new)) }
    ensures strays { NoStrayOnHeld D.tells (D.shows desk.old) (D.shows desk.new) source.now }
{
    reading_is_exact();
    let bytes = read_bytes(alloc, desk, source, LimitKind::FileBytes, FILE_BYTES)?;
    match read_file(alloc, bytes) {
        Ok(file) => Ok(file),
        Err(ReadStop::Fault(fault)) => Err(Outcome::File(fault)),
        Err(ReadStop::NoMemory) => Err(Outcome::NoMemory),
    }
}

/// Reads the script that the name holds.
pub(crate) fn read_script<D: Desk>(
    alloc: Global,
    desk: &mut D,
    script: &str,
) -> Result<Vec<u8>, Outcome>
    ensures later { D.faults desk.old ≤ D.faults desk.new }
    ensures quiet { NothingWritten D.tells (D.shows desk.old) (D.shows desk.new) }
    ensures writing_calls { KeepsWritingCalls D.tells (D.shows desk.old) (D.shows desk.new) }
    ensures read { IfOk result (λ lines. IsTrue D.tells.held → HoldsScript (D.shows desk.old) script.now lines.items) }
    ensures few { IfOk result (λ lines. length (script_lines lines.items) ≤ most_script_lines) }
    ensures stop { IfErr result (IsScriptStop D.tells (D.shows desk.old) script.now
        (D.faults desk.old) (D.faults desk.new)) }
    ensures closes { OnOk result (IsTrue D.tells.opened → NoMoreOpen (D.shows desk.old) (D.shows desk.new)) }
    ensures strays { NoStrayOnHeld D.tells (D.shows desk.old) (D.shows desk.new) script.now }
{
    let lines = read_bytes(alloc, desk, script, LimitKind::ScriptBytes, SCRIPT_BYTES)?;
    if line_count(&lines) > SCRIPT_LINES {
        return Err(Outcome::Limit {
            which: LimitKind::ScriptLines,
            count: SCRIPT_LINES as u128 + 1,
        });
    }
    Ok(lines)
}
