//! The end of a step of a session.
ghost use Rattle.std.specs.Prelude.{◌≡◌, ◌≤◌, IfErr, OnErr, OnOk};
ghost use Rattle.script_text.specs.declared.command.Command.TheVariants.{Apply};
ghost use Rattle.session.specs.Commands.{GoesOn, IsAccepted, IsAsItWas, IsRefusedFor, KeepsNumbers, RisesBy};
ghost use Rattle.session.specs.Standing.{InStates};

use crate::fault::SessionFault;
use crate::session::Session;
use crate::stepping::{add_version, plan_of};
use brep_desk::Steps;
use expansion_laws::laws::{cycles_are_determined, origins_stay, subtrees_stand, words_stay};
use file_loading::laws::loading_stays;
use orientation::Rule;
use requests::targets_fit_as_trees;
use script_requests::last_root;
use std::sync::ledger::Ledger;

impl Session {
    /// Carries out the step that isn't finished, where it has requests.
    pub(crate) fn end_step<L: Ledger>(
        &mut self,
        line: u64,
        steps: &mut Steps<L>,
    ) -> Result<(), SessionFault>
        ensures done { OnOk result (GoesOn self.old self.new Apply) }
        ensures accepted { OnOk result (IsAccepted self.old line Apply) }
        ensures refused { IfErr result (IsRefusedFor self.old line Apply) }
        ensures same { OnErr result (IsAsItWas self.old self.new) }
        ensures kept { KeepsNumbers self.old self.new }
        ensures file { self.new.file ≡ self.old.file }
        ensures steps { InStates self.old (λ s. RisesBy self.old.file s Apply steps.old steps.new) }
        ensures rise { steps.old ≤ steps.new }
    {
        let given = self.asked.as_slice();
        if given.is_empty() {
            self.rule = Rule::usual();
            return Ok(());
        }
        loading_stays();
        origins_stay();
        words_stay();
        subtrees_stand();
        cycles_are_determined();
        targets_fit_as_trees(&self.pool);
        self.pool.laws();
        let root = last_root(self.first, self.versions.as_slice());
        let plan = plan_of(self.alloc, &self.pool, given, self.rule, root, self.carried)?;
        let (pool, words) = (&mut self.pool, &mut self.words);
        let versions = &mut self.versions;
        add_version(pool, words, versions, &plan, self.first, &self.start, steps)?;
        self.pool.laws();
        self.carried += 1;
        self.asked.clear();
        self.rule = Rule::usual();
        Ok(())
    }
}
