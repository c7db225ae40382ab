//! A desk: named bytes that are read, and names that are written to, over numbered channels.
ghost use Rattle.std.specs.Prelude.{◌≡◌, ℕ, false, true, length, OnErr, IfOk};
ghost use Rattle.brep_desk.specs.Causes.{HasCause};
ghost use Rattle.brep_desk.specs.Shown.{Shown, Tells, AreTold, Same};
ghost use Rattle.brep_desk.specs.Calls.{BeginsReading, ReadsInto, BeginsWriting, Writes, Ends};
ghost use Rattle.brep_desk.specs.Strays.{CountsStrays, StraysOnBegin, StraysOnRead, StraysOnWrite, StraysOnEnd};
ghost use Rattle.brep_desk.specs.WritingCalls.{CountsWritingCall, CountsEndOfWriting, KeepsWritingCalls};

/// A call of a desk did not succeed.
#[derive(Clone, Copy, Debug, PartialEq, Eq)]
pub struct Failed;

/// An open or closed channel of a desk, by its number.
#[derive(Clone, Copy, Debug, PartialEq, Eq)]
pub struct Chan {
    pub number: u64,
}

/// The outside of a run. Whatever it does is a call of one of these methods. A desk may count stray
/// calls, which a run in good order never makes, and calls of writing.
pub trait Desk {
    /// How often the outside has failed. It never falls, and stands still at the last u64.
    ghost faults: { Self → ℕ };

    /// Which meanings this kind of desk tells.
    ghost tells: { Tells };

    /// The meanings. One that isn't told is the same at all times.
    ghost shows: { Self → Shown };

    /// Opens a name for reading. It fails at a name that can't be opened, or isn't held.
    fn begin_read(&mut self, name: &str) -> Result<Chan, Failed>
        ensures cause { HasCause (faults self.old) (faults self.new) result }
        ensures begins { IfOk result (λ c. BeginsReading tells (shows self.old) (shows self.new) name.now c.number) }
        ensures unchanged { OnErr result (Same (shows self.old) (shows self.new)) }
        ensures strays { StraysOnBegin tells (shows self.old) (shows self.new) name.now }
        ensures writing_calls { KeepsWritingCalls tells (shows self.old) (shows self.new) };

    /// Reads the next bytes to the front of `buf`, and answers how many. None, into a buffer with
    /// room, is the end of the input.
    fn read(&mut self, c: Chan, buf: &mut [u8]) -> Result<usize, Failed>
        ensures cause { HasCause (faults self.old) (faults self.new) result }
        ensures reads { IfOk result (ReadsInto tells (shows self.old) (shows self.new) c.number buf.old buf.new) }
        ensures unchanged { OnErr result (Same (shows self.old) (shows self.new)) }
        ensures strays { StraysOnRead tells (shows self.old) (shows self.new) c.number (length buf.old) }
        ensures writing_calls { KeepsWritingCalls tells (shows self.old) (shows self.new) };

    /// Begins the writing of a name anew: what was written under it before is gone.
    fn begin_write(&mut self, name: &str) -> Result<Chan, Failed>
        ensures cause { HasCause (faults self.old) (faults self.new) result }
        ensures begins { IfOk result (λ c. BeginsWriting tells (shows self.old) (shows self.new) name.now c.number) }
        ensures unchanged { OnErr result (Same (shows self.old) (shows self.new)) }
        ensures strays { CountsStrays tells (shows self.old) (shows self.new) false }
        ensures writing_calls { CountsWritingCall tells (shows self.old) (shows self.new) true };

    /// Takes bytes from the front of `bytes`, at least one if there is one, and answers how many.
    fn write(&mut self, c: Chan, bytes: &[u8]) -> Result<usize, Failed>
        ensures cause { HasCause (faults self.old) (faults self.new) result }
        ensures writes { IfOk result (λ n. Writes tells (shows self.old) (shows self.new) c.number bytes.now n) }
        ensures unchanged { OnErr result (Same (shows self.old) (shows self.new)) }
        ensures strays { StraysOnWrite tells (shows self.old) (shows self.new) c.number (length bytes.now) }
        ensures writing_calls { CountsWritingCall tells (shows self.old) (shows self.new) true };

    /// Closes a channel. Only now is a name that was written whole.
    fn end(&mut self, c: Chan) -> Result<(), Failed>
        ensures cause { HasCause (faults self.old) (faults self.new) result }
        ensures ends { IfOk result (λ _. Ends tells (shows self.old) (shows self.new) c.number) }
        ensures unchanged { OnErr result (Same (shows self.old) (shows self.new)) }
        ensures strays { StraysOnEnd tells (shows self.old) (shows self.new) c.number }
        ensures writing_calls { CountsEndOfWriting tells (shows self.old) (shows self.new) c.number };

    /// How often the outside has failed.
    fn faults(&self) -> u64
        ensures { result ≡ faults self.now };

    /// A desk that tells what a name holds tells what is left of it, and so on.
    ghost told: { AreTold tells };
}
