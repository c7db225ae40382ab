//! `copy`: reads a file, and writes it again by the written layout.
ghost use Rattle.std.specs.Prelude.{◌≡◌, IfOk, IsTrue, OnErr, OnOk};
ghost use Rattle.brep_desk.specs.Strays.{KeepsStrays, NoStrayOnHeld};
ghost use Rattle.brep_desk.specs.Transfers.{NothingWritten};
ghost use Rattle.brep_desk.specs.WritingCalls.{KeepsWritingCalls, RoseWritingCalls};
ghost use Rattle.brep_file.specs.PlainRecords.{expansion_of};
ghost use Rattle.brep_file.specs.Sound.{IsSound, IsWithinLimits};
ghost use Rattle.brep_run.specs.Outcomes.{OnDone, OnUsage, OnNotBuilt, OnWriting, IfFile, IfLimit};
ghost use Rattle.brep_run.specs.Outcomes.{IfCycle, IfScript, IfStopped, IfDeskFault, UnlessWriting};
ghost use Rattle.brep_run.specs.Copy.{Counts, HoldsFault, OutWritten, FirstStopped};
ghost use Rattle.brep_run.specs.Copy.{IsCopied, IsCopyStopped, IsFileLimit};
ghost use Rattle.brep_run.specs.Loaded.{IsLoadedCopy};
ghost use Rattle.brep_writer.specs.OwnVersion.{text_of};
ghost use Rattle.brep_writer.specs.Copies.{IsOfFewBytes};

use crate::input::read_input;
use crate::outcome::Outcome;
use crate::output::write_plan;
use brep_desk::Desk;
use brep_file::File;
use brep_writer::WritePlan;
use brep_writer::laws::copies_are_countable;
use file_loading::load_file;
use location_words::Words;
use shape_pool::{Pool, UseOf};
use std::alloc::{AllocError, Global};

/// A pool and a table of words that a file was loaded into, and its root.
#[derive(Drop)]
pub(crate) struct LoadedFile {
    pub(crate) pool: Pool,
    pub(crate) words: Words,
    pub(crate) root: UseOf,
}

/// Loads a file into a pool of its own.
fn loaded(alloc: Global, file: &File) -> Result<LoadedFile, AllocError>
    requires sound { IsSound file.now }
    requires within { IsWithinLimits file.now }
    ensures { IfOk result (IsLoadedCopy file.now) }
{
    let mut pool = Pool::new(alloc)?;
    let mut words = Words::new(alloc)?;
    let root = load_file(alloc, file, &mut pool, &mut words)?;
    Ok(LoadedFile { pool, words, root })
}

/// Writes the copy of a file under the name, whole and ended. Where memory is wanting, the desk isn't called.
fn write_copy<D: Desk>(
    alloc: Global,
    desk: &mut D,
    file: &File,
    target: &str,
) -> Result<Outcome, AllocError>
    requires sound { IsSound file.now }
    requires within { IsWithinLimits file.now }
    requires few { IsOfFewBytes file.now }
    ensures done { IfOk result (λ o. OnDone o (OutWritten D.tells (D.shows desk.old) (D.shows desk.new) target.now
        (text_of file.now (expansion_of file.now)))) }
    ensures stopped { IfOk result (λ o. IfStopped o (FirstStopped D.tells (D.shows desk.old) (D.shows desk.new)
        target.now (text_of file.now (expansion_of file.now)))) }
    ensures counts { IfOk result (λ o. IfDeskFault o (Counts (D.faults desk.old) (D.faults desk.new))) }
    ensures either { IfOk result (λ o. UnlessWriting o ⊥) }
    ensures strays { OnOk result (KeepsStrays D.tells (D.shows desk.old) (D.shows desk.new)) }
    ensures writing_calls { OnOk result (RoseWritingCalls D.tells (D.shows desk.old) (D.shows desk.new)) }
    ensures untouched { OnErr result (desk.new ≡ desk.old) }
{
    copies_are_countable();
    let loaded = loaded(alloc, file)?;
    let plan = WritePlan::new(
        alloc,
        file,
        &loaded.pool,
        &loaded.words,
        loaded.root,
        file.version,
    )?;
    Ok(write_plan(desk, target, &plan))
}

/// Reads the one name and writes its copy under the other. How it is written is planned before the writing begins, and
/// no text is held.
pub(crate) fn copy<D: Desk>(alloc: Global, desk: &mut D, source: &str, target: &str) -> Outcome
    ensures done { OnDone result (IsCopied D.tells (D.shows desk.old) (D.shows desk.new) source.now target.now) }
    ensures stopped { IfStopped result (IsCopyStopped D.tells (D.shows desk.old) (D.shows desk.new)
        source.now target.now) }
    ensures counts { IfDeskFault result (Counts (D.faults desk.old) (D.faults desk.new)) }
    ensures limit { IfLimit result (IsFileLimit D.tells (D.shows desk.old) source.now) }
    ensures file { IfFile result (λ fault. IsTrue D.tells.held → HoldsFault (D.shows desk.old) source.now fault) }
    ensures not_built { OnNotBuilt result ⊥ }
    ensures script { IfScript result (λ fault. ⊥) }
    ensures cycle { IfCycle result (λ walk. ⊥) }
    ensures usage { OnUsage result ⊥ }
    ensures quiet { UnlessWriting result (NothingWritten D.tells (D.shows desk.old) (D.shows desk.new)) }
    ensures calls_kept { UnlessWriting result (KeepsWritingCalls D.tells (D.shows desk.old) (D.shows desk.new)) }
    ensures calls_rose { OnWriting result (RoseWritingCalls D.tells (D.shows desk.old) (D.shows desk.new)) }
    ensures strays { NoStrayOnHeld D.tells (D.shows desk.old) (D.shows desk.new) source.now }
{
    let file = match read_input(alloc, desk, source) {
        Ok(file) => file,
        Err(stop) => return stop,
    };
    match write_copy(alloc, desk, &file, target) {
        Ok(outcome) => outcome,
        Err(_) => Outcome::NoMemory,
    }
}
