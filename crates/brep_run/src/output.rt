//! The writing of the first output: of a text that is held, or of a plan.
ghost use Rattle.std.specs.Prelude.{◌≤◌};
ghost use Rattle.brep_desk.specs.Strays.{KeepsStrays};
ghost use Rattle.brep_desk.specs.WritingCalls.{RoseWritingCalls};
ghost use Rattle.brep_run.specs.Copy.{Counts, FirstCounted, FirstStopped, OutWritten};
ghost use Rattle.brep_run.specs.Outcomes.{OnDone, IfStopped, IfDeskFault, UnlessWriting};
ghost use Rattle.brep_writer.specs.Plans.{plan_text, IsPlan};

use crate::outcome::Outcome;
use brep_desk::{Desk, write_all};
use brep_writer::WritePlan;

/// Writes the text under the name, whole and ended.
pub(crate) fn write_out<D: Desk>(desk: &mut D, target: &str, text: &[u8]) -> Outcome
    ensures later { D.faults desk.old ≤ D.faults desk.new }
    ensures done { OnDone result (OutWritten D.tells (D.shows desk.old) (D.shows desk.new) target.now text.now) }
    ensures stopped { IfStopped result (FirstStopped D.tells (D.shows desk.old) (D.shows desk.new)
        target.now text.now) }
    ensures counts { IfDeskFault result (Counts (D.faults desk.old) (D.faults desk.new)) }
    ensures either { UnlessWriting result ⊥ }
    ensures strays { KeepsStrays D.tells (D.shows desk.old) (D.shows desk.new) }
    ensures writing_calls { RoseWritingCalls D.tells (D.shows desk.old) (D.shows desk.new) }
{
    let before = desk.faults();
    let c = match desk.begin_write(target) {
        Ok(c) => c,
        Err(_) => {
            return Outcome::WriteDesk {
                before,
                after: desk.faults(),
                file: 1,
                taken: 0,
            };
        }
    };
    match write_all(desk, c, text) {
        Ok(()) => {}
        Err(stop) => {
            return Outcome::WriteDesk {
                before,
                after: desk.faults(),
                file: 1,
                taken: stop.taken,
            };
        }
    }
    match desk.end(c) {
        Ok(()) => Outcome::Done,
        Err(_) => Outcome::WriteDesk {
            before,
            after: desk.faults(),
            file: 1,
            taken: text.len() as u64,
        },
    }
}

/// Writes the text of a plan under the name, whole and ended. The text isn't held, and may be longer than is counted.
pub(crate) fn write_plan<D: Desk>(desk: &mut D, target: &str, plan: &WritePlan<'_>) -> Outcome
    requires plan { IsPlan plan.now }
    ensures later { D.faults desk.old ≤ D.faults desk.new }
    ensures done { OnDone result (OutWritten D.tells (D.shows desk.old) (D.shows desk.new) target.now
        (plan_text plan.now)) }
    ensures stopped { IfStopped result (FirstCounted D.tells (D.shows desk.old) (D.shows desk.new)
        target.now (plan_text plan.now)) }
    ensures counts { IfDeskFault result (Counts (D.faults desk.old) (D.faults desk.new)) }
    ensures either { UnlessWriting result ⊥ }
    ensures strays { KeepsStrays D.tells (D.shows desk.old) (D.shows desk.new) }
    ensures writing_calls { RoseWritingCalls D.tells (D.shows desk.old) (D.shows desk.new) }
{
    let before = desk.faults();
    let c = match desk.begin_write(target) {
        Ok(c) => c,
        Err(_) => {
            return Outcome::WriteDesk {
                before,
                after: desk.faults(),
                file: 1,
                taken: 0,
            };
        }
    };
    let taken = match plan.emit(desk, c) {
        Ok(taken) => taken,
        Err(stop) => {
            return Outcome::WriteDesk {
                before,
                after: desk.faults(),
                file: 1,
                taken: stop.taken,
            };
        }
    };
    match desk.end(c) {
        Ok(()) => Outcome::Done,
        Err(_) => Outcome::WriteDesk {
            before,
            after: desk.faults(),
            file: 1,
            taken,
        },
    }
}
