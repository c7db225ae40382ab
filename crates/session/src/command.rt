//! The commands of a session.
ghost use Rattle.std.specs.Prelude.{◌≡◌, ◌≤◌, IfErr, OnErr, OnOk, length};
ghost use Rattle.script_text.specs.Writing.{HasLine};
ghost use Rattle.script_text.specs.declared.command.Command.TheVariants.{OutputFirst, Prune, Undo, Until};
ghost use Rattle.session.specs.Commands.{GoesOn, IsAccepted, IsAsItWas, IsRefusedFor, KeepsNumbers, RisesBy};
ghost use Rattle.session.specs.Standing.{InStates};

use crate::fault::{SessionFault, refused};
use crate::session::Session;
use brep_desk::Steps;
use orientation::{Kind, Rule};
use script_requests::ScriptCode;
use script_text::Command;
use std::sync::ledger::Ledger;

impl Session {
    /// Carries out a command, that of the line with a number. After a refusal the session is as it was, but that its
    /// table of words may hold more.
    pub fn command<L: Ledger>(
        &mut self,
        command: &Command,
        line: u64,
        steps: &mut Steps<L>,
    ) -> Result<(), SessionFault>
        requires { HasLine (length self.old.file.records) (length self.old.file.locations) command.now }
        ensures done { OnOk result (GoesOn self.old self.new command.now) }
        ensures accepted { OnOk result (IsAccepted self.old line command.now) }
        ensures refused { IfErr result (IsRefusedFor self.old line command.now) }
        ensures same { OnErr result (IsAsItWas self.old self.new) }
        ensures kept { KeepsNumbers self.old self.new }
        ensures file { self.new.file ≡ self.old.file }
        ensures steps { InStates self.old (λ s. RisesBy self.old.file s command.now steps.old steps.new) }
        ensures rise { steps.old ≤ steps.new }
    {
        match command {
            Command::Apply => self.end_step(line, steps),
            Command::Undo => self.take_back(line),
            Command::Until(kind) => {
                self.stop_at(*kind);
                Ok(())
            }
            Command::Prune => {
                self.prune();
                Ok(())
            }
            Command::OutputFirst => {
                self.write_first();
                Ok(())
            }
            _ => self.ask(command, line),
        }
    }

    /// Takes back the step that isn't finished where it has requests, or else the last one.
    fn take_back(&mut self, line: u64) -> Result<(), SessionFault>
        ensures done { OnOk result (GoesOn self.old self.new Undo) }
        ensures accepted { OnOk result (IsAccepted self.old line Undo) }
        ensures refused { IfErr result (IsRefusedFor self.old line Undo) }
        ensures same { OnErr result (IsAsItWas self.old self.new) }
        ensures kept { KeepsNumbers self.old self.new }
        ensures file { self.new.file ≡ self.old.file }
    {
        let given = self.asked.as_slice();
        if !given.is_empty() {
            self.asked.clear();
            self.rule = Rule::usual();
            return Ok(());
        }
        match self.versions.pop() {
            Some(_) => {
                self.rule = Rule::usual();
                Ok(())
            }
            None => Err(refused(line, ScriptCode::NothingToUndo, 0, 0)),
        }
    }

    /// Sets the stop kind of the step that isn't finished.
    fn stop_at(&mut self, kind: Kind)
        ensures done { GoesOn self.old self.new (Until kind) }
        ensures kept { KeepsNumbers self.old self.new }
        ensures file { self.new.file ≡ self.old.file }
    {
        self.rule.stop = kind;
    }

    /// Sets the prune mark of the step that isn't finished.
    fn prune(&mut self)
        ensures done { GoesOn self.old self.new Prune }
        ensures kept { KeepsNumbers self.old self.new }
        ensures file { self.new.file ≡ self.old.file }
    {
        self.rule.prune = true;
    }

    /// Sets the version in which the output is written to 1.
    fn write_first(&mut self)
        ensures done { GoesOn self.old self.new OutputFirst }
        ensures kept { KeepsNumbers self.old self.new }
        ensures file { self.new.file ≡ self.old.file }
    {
        self.output = 1;
    }
}
