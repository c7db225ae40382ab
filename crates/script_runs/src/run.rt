//! The commands of a script, carried out one after another.
ghost use Rattle.std.specs.Prelude.{◌≡◌, ◌<◌, ◌≤◌, ◌^◌, IfErr, IfOk, OnOk, length};
ghost use Rattle.brep_file.specs.Sound.{IsSound, IsWithinLimits};
ghost use Rattle.script_text.specs.Lines.{script_lines};
ghost use Rattle.session.specs.Standing.{InStates, Stands};
ghost use Rattle.session.specs.States.{State};
ghost use Rattle.script_runs.specs.Runs.{HaveLines, IsAfterRun, IsDueRefusal, IsDueStop, RisesInRun, RisesInScript};
ghost use Rattle.script_runs.specs.Runs.{RunsTo};

use crate::commands::{LineCommand, commands_of};
use brep_desk::Steps;
use brep_file::File;
use script_text::Command;
use session::{Session, SessionFault};
use std::alloc::Global;
use std::sync::ledger::Ledger;

/// Carries out commands one after another, and then the end of the last step.
fn run_commands<L: Ledger>(
    session: &mut Session,
    commands: &[LineCommand],
    steps: &mut Steps<L>,
) -> Result<(), SessionFault>
    requires lines { HaveLines session.old.file commands.now }
    ensures done { OnOk result (InStates session.old (λ s.
        (end : State) × RunsTo session.old.file s commands.now end × Stands session.new end)) }
    ensures refused { IfErr result (λ fault. InStates session.old (λ s.
        IsDueStop session.old.file s commands.now fault)) }
    ensures file { session.new.file ≡ session.old.file }
    ensures steps { InStates session.old (λ s.
        RisesInRun session.old.file s commands.now steps.old steps.new) }
    ensures rise { steps.old ≤ steps.new }
{
    'commands: for it in commands {
        session.command(&it.command, it.line, steps)?;
    }
    session.command(&Command::Apply, 0, steps)
}

/// The session of a file, after a script was carried out on it: its commands one after another, and then the end of the
/// last step. Where a line is faulty, nothing is carried out.
pub fn run_script<L: Ledger>(
    alloc: Global,
    file: File,
    script: &[u8],
    steps: &mut Steps<L>,
) -> Result<Session, SessionFault>
    requires sound { IsSound file }
    requires within { IsWithinLimits file }
    requires few { length (script_lines script.now) < 2 ^ 64 }
    ensures done { IfOk result (IsAfterRun file script.now) }
    ensures refused { IfErr result (IsDueRefusal file script.now) }
    ensures steps { RisesInScript file script.now steps.old steps.new }
    ensures rise { steps.old ≤ steps.new }
{
    let (shapes, locations) = (file.records.len() as u32, file.locations.len());
    let commands = commands_of(alloc, script, shapes, locations)?;
    let mut session = Session::new(alloc, file)?;
    run_commands(&mut session, commands.as_slice(), steps)?;
    Ok(session)
}
