//! What a desk in memory counts: its calls, its stray calls, its calls of writing, its faults, and the faults for want
//! of memory.
ghost use Rattle.std.specs.Prelude.{◌≡◌, ◌≤◌};
ghost use Rattle.brep_desk.specs.Causes.{raised, Rose};
ghost use Rattle.brep_desk.specs.Counting.{after_call, with_call, with_refusal};

use crate::desk::Failed;

/// Why a call of a desk in memory is refused.
#[derive(Clone, Copy)]
pub(crate) enum Refusal {
    Fault,
    NoMemory,
}

/// What kind of call begins.
#[derive(Clone, Copy)]
pub(crate) struct Call {
    pub(crate) stray: bool,
    pub(crate) writing: bool,
}

/// Each count stands still at the last u64.
#[derive(Drop)]
pub(crate) struct Counts {
    pub(crate) calls: u64,
    pub(crate) strays: u64,
    pub(crate) writing_calls: u64,
    pub(crate) faults: u64,
    pub(crate) short: u64,
}

impl Counts {
    /// The number of the call that begins.
    pub(crate) fn next_call(&mut self, call: Call) -> u64
        ensures number { result ≡ raised self.old.calls }
        ensures strays { self.new.strays ≡ after_call call.stray self.old.strays }
        ensures writing_calls { self.new.writing_calls ≡ after_call call.writing self.old.writing_calls }
        ensures counted { self.new ≡ with_call self.old self.new.strays self.new.writing_calls }
        ensures strays_later { self.old.strays ≤ self.new.strays }
        ensures writing_later { self.old.writing_calls ≤ self.new.writing_calls }
        ensures enough { self.new.short ≡ self.old.short }
    {
        self.calls = self.calls.saturating_add(1);
        if call.stray {
            self.strays = self.strays.saturating_add(1);
        }
        if call.writing {
            self.writing_calls = self.writing_calls.saturating_add(1);
        }
        self.calls
    }

    /// Counts a call that is refused.
    pub(crate) fn refuse(&mut self, refusal: Refusal) -> Failed
        ensures counted { self.new ≡ with_refusal refusal self.old }
        ensures later { self.old.faults ≤ self.new.faults }
        ensures rose { Rose self.old.faults self.new.faults }
        ensures strays { self.new.strays ≡ self.old.strays }
        ensures writing_calls { self.new.writing_calls ≡ self.old.writing_calls }
        ensures enough { refusal ≡ Refusal.Fault → self.new.short ≡ self.old.short }
    {
        self.faults = self.faults.saturating_add(1);
        match refusal {
            Refusal::Fault => {}
            Refusal::NoMemory => self.short = self.short.saturating_add(1),
        }
        Failed
    }
}
