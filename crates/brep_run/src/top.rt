//! The top call: all that the program does.
ghost use Rattle.std.specs.Prelude.{◌≡◌};
ghost use Rattle.brep_desk.specs.Transfers.{NothingWritten};
ghost use Rattle.brep_desk.specs.WritingCalls.{KeepsWritingCalls, RoseWritingCalls};
ghost use Rattle.brep_run.specs.Answering.{Answers, answer_to};
ghost use Rattle.brep_run.specs.CommandLine.{HasInput, command_line_of, later, wrong};
ghost use Rattle.brep_run.specs.Copy.{Counts};
ghost use Rattle.brep_run.specs.Outcomes.{OnDone, OnUsage, OnNotBuilt, OnReadDesk, OnWriting, IfFile};
ghost use Rattle.brep_run.specs.Outcomes.{IfCycle, IfLimit, IfScript, IfStopped, IfDeskFault, UnlessWriting};
ghost use Rattle.brep_run.specs.Runs.{due};

use crate::command_line::{CommandLine, command_line};
use crate::copy::copy;
use crate::listing::list;
use crate::outcome::Outcome;
use crate::rewrite::rewrite;
use brep_desk::{CommandWords, Desk, Steps};
use brep_file::laws::reading_is_exact;
use brep_writer::laws::texts_stand_for_roots;
use expansion_laws::laws::records_are_trees;
use file_loading::laws::sound_files_have_trees;
use std::alloc::Global;
use std::sync::ledger::Ledger;

/// Does all that the program does, for the words after its name: `copy IN OUT` reads the file IN and writes it to OUT
/// by the written layout; `rewrite IN SCRIPT OUT HIST` reads the file IN, carries SCRIPT out on it, and writes the file
/// that comes of it to OUT and the history of its steps to HIST; `list IN KIND OUT` and `walk IN KIND N OUT` read the
/// file IN and write the shapes and the first N occurrences of a kind to OUT. Names are names of the desk; `-` may be
/// read and written.
/// The outcomes have these statuses: `Done` 0, `Usage` 2, `File` 3, `Script` 4, `Cycle` 5, `Limit` 6, `ReadDesk` 7,
/// `WriteDesk` 8, `NoMemory` 9, `NotBuilt` 10.
pub fn run<D: Desk, L: Ledger>(
    alloc: Global,
    words: &CommandWords,
    desk: &mut D,
    steps: &mut Steps<L>,
) -> Outcome
    // Done: the texts due stand whole under their names; where OUT is to be a file, it spells one, which expands to the
    // dressed root that is due; and in that file two occurrences go through one record exactly where their trees are
    // equal.
    ensures done { OnDone result (due D.tells (D.shows desk.old) (D.shows desk.new) words.now).finished }
    ensures expands { OnDone result (due D.tells (D.shows desk.old) (D.shows desk.new) words.now).expands }
    ensures shares { OnDone result (due D.tells (D.shows desk.old) (D.shows desk.new) words.now).shares }

    // The answer that is due for what the names hold: each refusal, Done or a fault of reading, unless a fault of the
    // desk is counted or memory runs out.
    ensures due { Answers result (answer_to D.tells (D.shows desk.old) words.now)
        (D.faults desk.old) (D.faults desk.new) }
    ensures usage_due { command_line_of words.now ≡ wrong → result ≡ Outcome.Usage }
    ensures not_built_due { command_line_of words.now ≡ later → result ≡ Outcome.NotBuilt }

    // Each other answer comes only here.
    ensures usage { OnUsage result (command_line_of words.now ≡ wrong) }
    ensures not_built { OnNotBuilt result (due D.tells (D.shows desk.old) (D.shows desk.new) words.now).not_built }
    ensures file { IfFile result (due D.tells (D.shows desk.old) (D.shows desk.new) words.now).file }
    ensures script { IfScript result (due D.tells (D.shows desk.old) (D.shows desk.new) words.now).script }
    ensures cycle { IfCycle result (due D.tells (D.shows desk.old) (D.shows desk.new) words.now).cycle }
    ensures limit { IfLimit result (due D.tells (D.shows desk.old) (D.shows desk.new) words.now).limit }
    ensures stopped { IfStopped result (due D.tells (D.shows desk.old) (D.shows desk.new) words.now).stopped }
    ensures read { OnReadDesk result (HasInput (command_line_of words.now)) }
    ensures counts { IfDeskFault result (Counts (D.faults desk.old) (D.faults desk.new)) }

    // After each answer but Done and WriteDesk nothing is written, and words that ask for no file touch nothing.
    ensures quiet { UnlessWriting result (NothingWritten D.tells (D.shows desk.old) (D.shows desk.new)) }
    // Such an answer comes after no call of writing, also none that failed; Done and WriteDesk come after one.
    ensures calls_kept { UnlessWriting result (KeepsWritingCalls D.tells (D.shows desk.old) (D.shows desk.new)) }
    ensures calls_rose { OnWriting result (RoseWritingCalls D.tells (D.shows desk.old) (D.shows desk.new)) }
    ensures untouched { (HasInput (command_line_of words.now) → ⊥) → desk.new ≡ desk.old }
    // It makes no stray call, where what it reads is held: of SCRIPT this is asked only where IN holds a file that is
    // read.
    ensures strays { (due D.tells (D.shows desk.old) (D.shows desk.new) words.now).no_strays }
    // Only a rewriting counts steps: no more than the keys of the steps that its script tries.
    ensures steps { (due D.tells (D.shows desk.old) (D.shows desk.new) words.now).rises steps.old steps.new }
{
    reading_is_exact();
    texts_stand_for_roots();
    records_are_trees();
    sound_files_have_trees();
    match command_line(words.as_slice()) {
        CommandLine::Wrong => Outcome::Usage,
        CommandLine::Later => Outcome::NotBuilt,
        CommandLine::Lists {
            source,
            listing,
            target,
        } => list(alloc, desk, source, listing, target),
        CommandLine::Copy { source, target } => copy(alloc, desk, source, target),
        CommandLine::Rewrite {
            source,
            script,
            target,
            history,
        } => rewrite(alloc, desk, source, script, target, history, steps),
    }
}
