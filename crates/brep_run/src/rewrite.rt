//! `rewrite`: reads a file and a script, carries the script out, and writes the file that comes of it and its history.
ghost use Rattle.std.specs.Prelude.{◌≡◌, ◌≤◌, IfErr, IfOk, IsTrue, OnErr, OnOk, length};
ghost use Rattle.brep_desk.specs.Strays.{KeepsStrays};
ghost use Rattle.brep_desk.specs.Transfers.{NothingWritten};
ghost use Rattle.history_text.specs.HistoryText.{text_of};
ghost use Rattle.brep_desk.specs.WritingCalls.{KeepsWritingCalls, RoseWritingCalls};
ghost use Rattle.brep_run.specs.Copy.{Counts, HoldsFault};
ghost use Rattle.brep_run.specs.Outcomes.{OnDone, OnUsage, OnNotBuilt, OnWriting, IfCycle, IfFile, IfLimit};
ghost use Rattle.brep_run.specs.Outcomes.{IfScript, IfStopped, IfDeskFault, UnlessWriting};
ghost use Rattle.brep_run.specs.Rewrite.{BothWritten, HistoryStopped, HistoryWritten, IsOneStopped};
ghost use Rattle.brep_run.specs.Rewrite.{IsCycleOfRun, IsRefusedLine, IsRewriteLimit, IsRewriteRise};
ghost use Rattle.brep_run.specs.Rewrite.{IsRewriteStopped, IsRewritten, NoStrayOnInputs, StoppedFor, WrittenFor};
ghost use Rattle.brep_file.specs.Sound.{IsSound, IsWithinLimits};
ghost use Rattle.brep_run.specs.Inputs.{IsRunStop};
ghost use Rattle.brep_run.specs.Rewrite.{most_script_lines};
ghost use Rattle.script_runs.specs.Runs.{IsAfterRun, RisesInScript};
ghost use Rattle.script_text.specs.Lines.{script_lines};
ghost use Rattle.brep_writer.specs.Plans.{plan_text, IsPlan};
ghost use Rattle.session.specs.Standing.{InStates};

use crate::input::{read_input, read_script};
use crate::outcome::Outcome;
use crate::output::write_plan;
use brep_desk::{Desk, Steps};
use brep_file::File;
use brep_file::laws::reading_is_exact;
use brep_writer::WritePlan;
use brep_writer::laws::texts_stand_for_roots;
use expansion_laws::laws::roots_are_written;
use history_text::{HistoryFile, emit};
use script_runs::run_script;
use session::{Session, SessionFault};
use std::alloc::{AllocError, Global};
use std::sync::ledger::Ledger;
use tshape_data::laws::renumbering_keeps_parts;
use written_history::history_in_numbers;
use written_history::laws::{numbers_tell_histories, orders_list_once};
use written_locations::laws::{further_words_are_due, numbers_are_places, sections_hold};
use written_order::order_of;

/// Carries a script out on a file; why it isn't carried out is told as an outcome.
fn carried_out<L: Ledger>(
    alloc: Global,
    file: File,
    lines: &[u8],
    steps: &mut Steps<L>,
) -> Result<Session, Outcome>
    requires sound { IsSound file }
    requires within { IsWithinLimits file }
    requires few { length (script_lines lines.now) ≤ most_script_lines }
    ensures done { IfOk result (IsAfterRun file lines.now) }
    ensures stop { IfErr result (IsRunStop file lines.now) }
    ensures steps { RisesInScript file lines.now steps.old steps.new }
    ensures rise { steps.old ≤ steps.new }
{
    match run_script(alloc, file, lines, steps) {
        Ok(session) => Ok(session),
        Err(SessionFault::Script(fault)) => Err(Outcome::Script(fault)),
        Err(SessionFault::Cycle(walk)) => Err(Outcome::Cycle(walk)),
        Err(SessionFault::Limit { which, count }) => Err(Outcome::Limit { which, count }),
        Err(SessionFault::NoMemory) => Err(Outcome::NoMemory),
    }
}

/// Writes the history under the name, whole and ended, as the second output.
fn write_history<D: Desk>(desk: &mut D, name: &str, history: &HistoryFile) -> Outcome
    ensures done { OnDone result (HistoryWritten D.tells (D.shows desk.old) (D.shows desk.new) name.now history.now) }
    ensures stopped { IfStopped result (HistoryStopped D.tells (D.shows desk.old) (D.shows desk.new)
        name.now history.now) }
    ensures counts { IfDeskFault result (Counts (D.faults desk.old) (D.faults desk.new)) }
    ensures either { UnlessWriting result ⊥ }
    ensures strays { KeepsStrays D.tells (D.shows desk.old) (D.shows desk.new) }
    ensures writing_calls { RoseWritingCalls D.tells (D.shows desk.old) (D.shows desk.new) }
{
    let before = desk.faults();
    let c = match desk.begin_write(name) {
        Ok(c) => c,
        Err(_) => {
            return Outcome::WriteDesk {
                before,
                after: desk.faults(),
                file: 2,
                taken: 0,
            };
        }
    };
    let taken = match emit(history, desk, c) {
        Ok(taken) => taken,
        Err(stop) => {
            return Outcome::WriteDesk {
                before,
                after: desk.faults(),
                file: 2,
                taken: stop.taken,
            };
        }
    };
    match desk.end(c) {
        Ok(()) => Outcome::Done,
        Err(_) => Outcome::WriteDesk {
            before,
            after: desk.faults(),
            file: 2,
            taken,
        },
    }
}

/// Writes the text of a plan and then the history, each whole and ended.
fn write_both<D: Desk>(
    desk: &mut D,
    target: &str,
    plan: &WritePlan<'_>,
    name: &str,
    history: &HistoryFile,
) -> Outcome
    requires plan { IsPlan plan.now }
    ensures done { OnDone result (BothWritten D.tells (D.shows desk.old) (D.shows desk.new)
        target.now (plan_text plan.now) name.now (text_of history.now)) }
    ensures stopped { IfStopped result (IsOneStopped D.tells (D.shows desk.old) (D.shows desk.new)
        target.now (plan_text plan.now) name.now (text_of history.now)) }
    ensures counts { IfDeskFault result (Counts (D.faults desk.old) (D.faults desk.new)) }
    ensures either { UnlessWriting result ⊥ }
    ensures strays { KeepsStrays D.tells (D.shows desk.old) (D.shows desk.new) }
    ensures writing_calls { RoseWritingCalls D.tells (D.shows desk.old) (D.shows desk.new) }
{
    match write_plan(desk, target, plan) {
        Outcome::Done => write_history(desk, name, history),
        stopped => stopped,
    }
}

/// Writes the root that a session has left and the history of its steps. Both are planned before the writing begins;
/// where memory is wanting for that, the desk isn't called.
fn write_session<D: Desk>(
    alloc: Global,
    desk: &mut D,
    session: &Session,
    target: &str,
    history: &str,
) -> Result<Outcome, AllocError>
    ensures done { InStates session.now (λ s. IfOk result (λ o. OnDone o (WrittenFor D.tells (D.shows desk.old)
        (D.shows desk.new) session.now.file s target.now history.now))) }
    ensures stopped { InStates session.now (λ s. IfOk result (λ o. IfStopped o (StoppedFor D.tells (D.shows desk.old)
        (D.shows desk.new) session.now.file s target.now history.now))) }
    ensures counts { IfOk result (λ o. IfDeskFault o (Counts (D.faults desk.old) (D.faults desk.new))) }
    ensures either { IfOk result (λ o. UnlessWriting o ⊥) }
    ensures strays { OnOk result (KeepsStrays D.tells (D.shows desk.old) (D.shows desk.new)) }
    ensures writing_calls { OnOk result (RoseWritingCalls D.tells (D.shows desk.old) (D.shows desk.new)) }
    ensures untouched { OnErr result (desk.new ≡ desk.old) }
{
    texts_stand_for_roots();
    roots_are_written();
    renumbering_keeps_parts();
    sections_hold();
    numbers_are_places();
    further_words_are_due();
    session.laws();
    let pool = session.pool();
    let words = session.words();
    let root = session.root();
    pool.laws();
    numbers_tell_histories(pool);
    orders_list_once(pool);
    // What the table says of how many words it holds.
    let _ = words.len();
    let plan = WritePlan::new(alloc, session.file(), pool, words, root, session.output())?;
    let order = order_of(alloc, pool, root.id)?;
    let told = history_in_numbers(alloc, pool, &order, session.history())?;
    Ok(write_both(desk, target, &plan, history, &told))
}

/// Reads the file and its script, carries the script out, and writes the file that comes of it under the one name and
/// the history under the other. How both are written is planned before the writing begins, and no text is held.
pub(crate) fn rewrite<D: Desk, L: Ledger>(
    alloc: Global,
    desk: &mut D,
    source: &str,
    script: &str,
    target: &str,
    history: &str,
    steps: &mut Steps<L>,
) -> Outcome
    ensures done { OnDone result (IsRewritten D.tells (D.shows desk.old) (D.shows desk.new)
        source.now script.now target.now history.now) }
    ensures stopped { IfStopped result (IsRewriteStopped D.tells (D.shows desk.old) (D.shows desk.new)
        source.now script.now target.now history.now) }
    ensures counts { IfDeskFault result (Counts (D.faults desk.old) (D.faults desk.new)) }
    ensures limit { IfLimit result (IsRewriteLimit D.tells (D.shows desk.old) source.now script.now) }
    ensures file { IfFile result (λ fault. IsTrue D.tells.held → HoldsFault (D.shows desk.old) source.now fault) }
    ensures not_built { OnNotBuilt result ⊥ }
    ensures script { IfScript result (IsRefusedLine D.tells (D.shows desk.old) source.now script.now) }
    ensures cycle { IfCycle result (IsCycleOfRun D.tells (D.shows desk.old) source.now script.now) }
    ensures usage { OnUsage result ⊥ }
    ensures quiet { UnlessWriting result (NothingWritten D.tells (D.shows desk.old) (D.shows desk.new)) }
    ensures calls_kept { UnlessWriting result (KeepsWritingCalls D.tells (D.shows desk.old) (D.shows desk.new)) }
    ensures calls_rose { OnWriting result (RoseWritingCalls D.tells (D.shows desk.old) (D.shows desk.new)) }
    ensures strays { NoStrayOnInputs D.tells (D.shows desk.old) (D.shows desk.new) source.now script.now }
    ensures steps { IsRewriteRise D.tells (D.shows desk.old) source.now script.now steps.old steps.new }
{
    reading_is_exact();
    let file = match read_input(alloc, desk, source) {
        Ok(file) => file,
        Err(stop) => return stop,
    };
    let lines = match read_script(alloc, desk, script) {
        Ok(lines) => lines,
        Err(stop) => return stop,
    };
    let session = match carried_out(alloc, file, &lines, steps) {
        Ok(session) => session,
        Err(stop) => return stop,
    };
    match write_session(alloc, desk, &session, target, history) {
        Ok(outcome) => outcome,
        Err(_) => Outcome::NoMemory,
    }
}
