//! The session of a script: its file, and what its steps have made of it.
ghost use Rattle.std.specs.Prelude.{◌≡◌, IfErr, IfOk};
ghost use Rattle.brep_file.specs.Sound.{IsSound, IsWithinLimits};
ghost use Rattle.file_loading.specs.Loading.{use_in};
ghost use Rattle.shape_pool.specs.Laws.{word_in};
ghost use Rattle.step_history.specs.Numbered.{IsHeld, Tells, tree_by};
ghost use Rattle.session.specs.Standing.{InStates, IsSession, IsUseHeld, Stands};
ghost use Rattle.session.specs.States.{first_state, history_of, root_of};
ghost use Rattle.session.specs.Views.{history_of_view, root_of_view};

use crate::fault::SessionFault;
use brep_file::File;
use file_loading::load_file;
use history_merge::start;
use location_table::laws::places_have_words;
use location_words::Words;
use orientation::Rule;
use requests::Request;
use script_requests::{Version, last_history, last_root};
use shape_pool::{Pool, UseOf};
use std::alloc::Global;
use std::marker::Model;
use step_history::StepHistory;

/// A file and what the commands so far have made of it: the versions of its root that stand, each with its history, and
/// the step that isn't finished.
#[derive(Drop)]
pub struct Session {
    pub(crate) alloc: Global,
    pub(crate) file: File,
    pub(crate) pool: Pool,
    pub(crate) words: Words,
    pub(crate) first: UseOf,
    pub(crate) start: StepHistory,
    pub(crate) versions: Vec<Version>,
    pub(crate) asked: Vec<Request>,
    pub(crate) rule: Rule,
    pub(crate) output: u8,
    pub(crate) carried: u32,
}

impl Model for Session {
    ghost use Rattle.session.specs.Standing.{IsSession};
    ghost use Rattle.session.specs.Views.{View};
    ghost use Rattle.curve_tables.specs.contracts.curve2.Curve2 as of_curve2;
    ghost use Rattle.curve_tables.specs.contracts.curve3.Curve3 as of_curve3;
    ghost use Rattle.surface_tables.specs.contracts.surface.Surface as of_surface;
    ghost use Rattle.std.specs.Coded.{codes};

    ghost Value = { View };

    ghost coded = { Prim.hlevel (codes, of_curve2.the_row.coded, of_curve3.the_row.coded, of_surface.the_row.coded) };

    ghost view = { λ s. record {
      file = s.file;
      words = s.words;
      rows = s.pool;
      first = s.first;
      start = s.start;
      versions = s.versions.items;
      asked = s.asked.items;
      rule = s.rule;
      output = s.output;
      carried = s.carried;
    } };

    ghost invariant = { λ s. IsSession (record {
      file = s.file;
      words = s.words;
      rows = s.pool;
      first = s.first;
      start = s.start;
      versions = s.versions.items;
      asked = s.asked.items;
      rule = s.rule;
      output = s.output;
      carried = s.carried;
    }) };
}

impl Session {
    /// The session of a file, before the first command.
    pub fn new(alloc: Global, file: File) -> Result<Session, SessionFault>
        requires sound { IsSound file }
        requires within { IsWithinLimits file }
        ensures stands { IfOk result (λ s. Stands s (first_state file)) }
        ensures file { IfOk result (λ s. s.file ≡ file) }
        ensures refused { IfErr result (λ fault. fault ≡ SessionFault.NoMemory) }
    {
        let mut pool = Pool::new(alloc)?;
        let mut words = Words::new(alloc)?;
        let first = load_file(alloc, &file, &mut pool, &mut words)?;
        pool.laws();
        places_have_words();
        let start = start(&pool, first.id)?;
        let output = file.version;
        Ok(Session {
            alloc,
            file,
            pool,
            words,
            first,
            start,
            versions: Vec::new(alloc),
            asked: Vec::new(alloc),
            rule: Rule::usual(),
            output,
            carried: 0,
        })
    }

    /// The root that the steps have left.
    pub fn root(&self) -> UseOf
        ensures root { result ≡ root_of_view self.now }
        ensures held { IsUseHeld self.now.words self.now.rows result }
        ensures stands { InStates self.now (λ s. use_in self.now.words self.now.rows result ≡ root_of self.now.file s) }
    {
        last_root(self.first, self.versions.as_slice())
    }

    /// The history of the steps that stand.
    pub fn history(&self) -> &StepHistory
        ensures history { result.now ≡ history_of_view self.now }
        ensures held { IsHeld self.now.rows result.now }
        ensures tells { InStates self.now (λ s. Tells (tree_by (word_in self.now.words) self.now.rows) result.now
            (history_of self.now.file s)) }
    {
        last_history(&self.start, self.versions.as_slice())
    }

    /// The nodes of all versions.
    pub fn pool(&self) -> &Pool
        ensures { result.now ≡ self.now.rows }
    {
        &self.pool
    }

    /// The words of all uses.
    pub fn words(&self) -> &Words
        ensures { result.now ≡ self.now.words }
    {
        &self.words
    }

    /// The file.
    pub fn file(&self) -> &File
        ensures { result.now ≡ self.now.file }
    {
        &self.file
    }

    /// The version in which the output is written.
    pub fn output(&self) -> u8
        ensures { result ≡ self.now.output }
    {
        self.output
    }

    /// What holds of every session: it stands for a state of its script.
    pub fn laws(&self)
        ensures { IsSession self.now }
    {
        let _ = &self.words;
    }
}
