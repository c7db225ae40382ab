//! What commands ask of the step that isn't finished.
ghost use Rattle.std.specs.Prelude.{◌≡◌, IfErr, IfOk, OnErr, OnOk, reverse};
ghost use Rattle.location_words.specs.Tables.{IsTable};
ghost use Rattle.file_loading.specs.Loading.{IsLoadedFrom};
ghost use Rattle.file_loading.specs.Places.{KeepsWords};
ghost use Rattle.script_requests.specs.AsTrees.{IsOfFile};
ghost use Rattle.script_requests.specs.Named.{AreVersionsHeld};
ghost use Rattle.script_requests.specs.Numbered.{OrWants};
ghost use Rattle.session.specs.Commands.{AsksOf, FailsFor, GoesOn, IsAccepted, IsAsItWas, IsAsking, IsRefusedFor};
ghost use Rattle.session.specs.Commands.{KeepsNumbers};

use crate::fault::SessionFault;
use crate::session::Session;
use brep_file::File;
use file_loading::laws::loading_stays;
use location_table::laws::places_have_words;
use location_words::Words;
use requests::Requests;
use script_requests::laws::asking_stands_for_trees;
use script_requests::{AskFault, Version, merging, removing, replacing, sewing_of};
use script_text::Command;
use shape_pool::Pool;
use std::alloc::Global;

/// What a command that asks something asks of the step that isn't finished.
fn asked_by(
    alloc: Global,
    file: &File,
    pool: &Pool,
    words: &mut Words,
    versions: &[Version],
    command: &Command,
    line: u64,
) -> Result<Requests, AskFault>
    requires asks { IsAsking command.now }
    requires line { IsOfFile file.now command.now }
    requires loaded { IsLoadedFrom file.now words.old pool.now }
    requires versions { AreVersionsHeld pool.now versions.now }
    ensures asked { IfOk result (AsksOf file.now words.new pool.now (reverse versions.now) line command.now) }
    ensures refused { IfErr result (OrWants
        (FailsFor file.now words.new pool.now (reverse versions.now) line command.now)) }
    ensures kept { KeepsWords words.old words.new }
    ensures table { IsTable words.new }
{
    asking_stands_for_trees(pool);
    match command {
        Command::Replace { sel, tgt } => {
            replacing(alloc, file, pool, words, versions, *sel, *tgt, line)
        }
        Command::Remove { sel } => {
            let asked = removing(alloc, file, pool, words, versions, *sel)?;
            Ok(asked)
        }
        Command::Merge(names) => merging(alloc, pool, versions, names.as_slice(), line),
        Command::Sew(names) => sewing_of(alloc, pool, versions, names.as_slice(), line),
        Command::Apply => unreachable!(),
        Command::Undo => unreachable!(),
        Command::Until(_) => unreachable!(),
        Command::Prune => unreachable!(),
        Command::OutputFirst => unreachable!(),
    }
}

impl Session {
    /// Adds what a command asks to the step that isn't finished: all of it, or nothing.
    pub(crate) fn ask(&mut self, command: &Command, line: u64) -> Result<(), SessionFault>
        requires asks { IsAsking command.now }
        requires line { IsOfFile self.old.file command.now }
        ensures done { OnOk result (GoesOn self.old self.new command.now) }
        ensures accepted { OnOk result (IsAccepted self.old line command.now) }
        ensures refused { IfErr result (IsRefusedFor self.old line command.now) }
        ensures same { OnErr result (IsAsItWas self.old self.new) }
        ensures kept { KeepsNumbers self.old self.new }
        ensures file { self.new.file ≡ self.old.file }
    {
        loading_stays();
        places_have_words();
        self.pool.laws();
        let versions = self.versions.as_slice();
        let (alloc, file, pool) = (self.alloc, &self.file, &self.pool);
        let more = asked_by(alloc, file, pool, &mut self.words, versions, command, line)?;
        self.asked.extend_from_slice(more.as_slice())?;
        Ok(())
    }
}
