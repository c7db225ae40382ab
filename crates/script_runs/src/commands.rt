//! What a script says: the commands of its lines.
ghost use Rattle.std.specs.Prelude.{◌≡◌, ◌<◌, ◌^◌, IfErr, IfOk, OnOk, length};
ghost use Rattle.script_text.specs.Lines.{script_lines};
ghost use Rattle.script_runs.specs.Scripts.{AreLines, commands, script_read};
ghost use Rattle.script_runs.specs.Taking.{IsStopAt, IsStopOf, StopsAtLine, TakesLine};

use script_requests::{ScriptCode, ScriptFault};
use script_text::laws::commands_have_lines;
use script_text::{Command, LineFault, lines_of, parse};
use session::SessionFault;
use std::alloc::Global;

/// A command of a script, and the number of its line, from 1 on.
#[derive(Drop)]
pub(crate) struct LineCommand {
    pub(crate) line: u64,
    pub(crate) command: Command,
}

/// The fault of the line with a number, over so many records and locations of a file.
fn stop_at(line: u64, fault: LineFault, shapes: u32, locations: u32) -> SessionFault
    ensures { IsStopAt shapes locations line fault result }
{
    let (code, first, second) = match fault {
        LineFault::Syntax => (ScriptCode::Syntax, 0, 0),
        LineFault::NoSuchShape(number) => (ScriptCode::NoSuchShape, number, shapes as u64),
        LineFault::NoSuchLocation(number) => {
            (ScriptCode::NoSuchLocation, number, locations as u64)
        }
        LineFault::NoMemory => return SessionFault::NoMemory,
    };
    SessionFault::Script(ScriptFault {
        line,
        code,
        first,
        second,
    })
}

/// Takes a line, of which this is the number: it is passed over, or its command is appended.
fn take_line(
    alloc: Global,
    taken: &mut Vec<LineCommand>,
    line: u64,
    bytes: &[u8],
    shapes: u32,
    locations: u32,
) -> Result<(), SessionFault>
    ensures ok { OnOk result (TakesLine shapes locations taken.old.items taken.new.items line bytes.now) }
    ensures err { IfErr result (StopsAtLine shapes locations taken.old.items line bytes.now) }
{
    match parse(alloc, bytes, shapes, locations) {
        Ok(None) => Ok(()),
        Ok(Some(command)) => match taken.push(LineCommand { line, command }) {
            Ok(()) => Ok(()),
            Err(_) => Err(SessionFault::NoMemory),
        },
        Err(fault) => Err(stop_at(line, fault, shapes, locations)),
    }
}

/// The commands of a script in their order, over so many records and locations of a file.
pub(crate) fn commands_of(
    alloc: Global,
    script: &[u8],
    shapes: u32,
    locations: u32,
) -> Result<Vec<LineCommand>, SessionFault>
    requires { length (script_lines script.now) < 2 ^ 64 }
    ensures ok { IfOk result (λ taken. script_read shapes locations script.now ≡ commands taken.items) }
    ensures err { IfErr result (IsStopOf shapes locations (script_read shapes locations script.now)) }
    ensures lines { IfOk result (λ taken. AreLines shapes locations taken.items) }
{
    commands_have_lines();
    let mut taken = Vec::new(alloc);
    let mut lines = lines_of(script);
    let mut line = 0u64;
    'lines: while let Some(bytes) = lines.next() {
        line += 1;
        take_line(alloc, &mut taken, line, bytes, shapes, locations)?;
    }
    Ok(taken)
}
