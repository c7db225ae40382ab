//! A desk in memory, which tells everything.
ghost use Rattle.std.specs.Prelude.{◌<◌};
ghost use Rattle.brep_desk.specs.Kept.{AllBegun};

use crate::channels::{Channel, read};
use crate::counts::{Call, Counts, Refusal};
use crate::desk::{Chan, Desk, Failed};
use crate::kept::{begin_reading, begin_writing, end_channel, write_over};
use crate::names::{Bytes, NameText};
use crate::outputs::{Output, is_whole, written};
use crate::strays::{end_of_writing, stray_begin_read, stray_end, stray_read, stray_write};
use std::alloc::Global;

/// Files that are held in memory, and outputs that are written to it. The calls of the trait,
/// but for `faults`, are numbered from 1, and those with given numbers fail. Stray calls count
/// whether they fail or not.
#[derive(Drop)]
pub struct MemoryDesk {
    alloc: Global,
    files: Vec<(NameText, Bytes)>,
    outputs: Vec<Output>,
    channels: Vec<Channel>,
    failing: Vec<u64>,
    piece: usize,
    counts: Counts,
    ghost begun: { AllBegun outputs.items channels.items },
    ghost some: { 0 < piece },
}

impl MemoryDesk {
    ghost use Rattle.std.specs.Prelude.{◌≡◌, ◌<◌};
    ghost use Rattle.brep_desk.specs.Kept.{Shows};
    ghost use Rattle.brep_desk.specs.Memory.{Starts, shown_of, short_of};

    /// A desk that holds the files, of two with one name the first. The calls whose numbers stand
    /// in `failing` fail, and a read or a write moves at most `piece` bytes.
    pub fn new(
        alloc: Global,
        files: Vec<(NameText, Bytes)>,
        failing: Vec<u64>,
        piece: usize,
    ) -> MemoryDesk
        requires { 0 < piece }
        ensures { Starts result files.items failing.items piece }
    {
        MemoryDesk {
            alloc,
            files,
            outputs: Vec::new(alloc),
            channels: Vec::new(alloc),
            failing,
            piece,
            counts: Counts {
                calls: 0,
                strays: 0,
                writing_calls: 0,
                faults: 0,
                short: 0,
            },
        }
    }

    /// How often a call failed for want of memory.
    pub fn short(&self) -> u64
        ensures { result ≡ short_of self.now }
    {
        self.counts.short
    }

    /// What was written under a name since its writing began. None where it never began.
    pub fn written(&self, name: &str) -> Option<&[u8]>
        ensures { Shows result ((shown_of self.now).written name.now) }
    {
        written(&self.outputs, name)
    }

    /// Whether the writing of a name was ended.
    pub fn ended(&self, name: &str) -> bool
        ensures { result ≡ (shown_of self.now).ended name.now }
    {
        is_whole(&self.outputs, name)
    }
}

impl Desk for MemoryDesk {
    ghost use Rattle.std.specs.Prelude.{◌≡◌, ◌+◌, ◌⊎◌, false, true, length, min, OnErr, OnOk, IfOk, IsErr};
    ghost use Rattle.brep_desk.specs.Causes.{HasCause};
    ghost use Rattle.brep_desk.specs.Shown.{tells_all, Same};
    ghost use Rattle.brep_desk.specs.Calls.{Writes, Ends};
    ghost use Rattle.brep_desk.specs.Strays.{is_stray_begin_read, is_stray_read, is_stray_write, is_stray_end};
    ghost use Rattle.brep_desk.specs.Strays.{CountsStrays, StraysOnBegin, StraysOnRead, StraysOnWrite};
    ghost use Rattle.brep_desk.specs.Strays.{StraysOnEnd};
    ghost use Rattle.brep_desk.specs.WritingCalls.{is_end_of_writing};
    ghost use Rattle.brep_desk.specs.WritingCalls.{CountsWritingCall, CountsEndOfWriting, KeepsWritingCalls};
    ghost use Rattle.brep_desk.specs.Memory.{shown_of, held_of, role_of, faults_of, short_of};
    ghost use Rattle.brep_desk.specs.Memory.{channels_of, moved_by_read, piece_of};
    ghost use Rattle.brep_desk.specs.Memory.{OpensForReading, FillsBuffer, OpensForWriting};
    ghost use Rattle.brep_desk.specs.Memory.{OneStray, OneWritingCall, Counted, RanShort};
    ghost use Rattle.brep_desk.specs.Memory.{CannotBeginReading, CannotRead};
    ghost use Rattle.brep_desk.specs.Memory.{CannotBeginWriting, CannotWrite, CannotEnd};

    ghost faults = { faults_of };

    ghost tells = { tells_all };

    ghost shows = { shown_of };

    /// Fails at a name that is not held, and where only the last number is left for a channel.
    fn begin_read(&mut self, name: &str) -> Result<Chan, Failed>
        ensures cause { HasCause (faults_of self.old) (faults_of self.new) result }
        ensures begins { IfOk result (OpensForReading self.old self.new name.now) }
        ensures unchanged { OnErr result (Same (shown_of self.old) (shown_of self.new)) }
        ensures strays { StraysOnBegin tells_all (shown_of self.old) (shown_of self.new) name.now }
        ensures writing_calls { KeepsWritingCalls tells_all (shown_of self.old) (shown_of self.new) }
        ensures one_stray { OneStray self.old self.new (is_stray_begin_read tells_all (held_of self.old name.now)) }
        ensures one_writing_call { OneWritingCall self.old self.new false }
        ensures counted { Counted self.old self.new result }
        ensures due { CannotBeginReading self.old name.now → IsErr result × (short_of self.new ≡ short_of self.old) }
        ensures refused { OnErr result (CannotBeginReading self.old name.now ⊎ RanShort self.old self.new) }
        ensures number { IfOk result (λ c. c.number ≡ channels_of self.old) }
        ensures next { OnOk result (channels_of self.new ≡ channels_of self.old + 1) }
        ensures same_next { OnErr result (channels_of self.new ≡ channels_of self.old) }
    {
        let stray = stray_begin_read(&self.files, name);
        let call = self.counts.next_call(Call {
            stray,
            writing: false,
        });
        if self.failing.contains(&call) {
            return Err(self.counts.refuse(Refusal::Fault));
        }
        match begin_reading(self.alloc, &self.files, &mut self.channels, name) {
            Ok(number) => Ok(Chan { number }),
            Err(refusal) => Err(self.counts.refuse(refusal)),
        }
    }

    /// Fails at a channel that is not open for reading.
    fn read(&mut self, c: Chan, buf: &mut [u8]) -> Result<usize, Failed>
        ensures cause { HasCause (faults_of self.old) (faults_of self.new) result }
        ensures reads { IfOk result (FillsBuffer self.old self.new c buf.old buf.new) }
        ensures unchanged { OnErr result (Same (shown_of self.old) (shown_of self.new)) }
        ensures strays { StraysOnRead tells_all (shown_of self.old) (shown_of self.new) c.number (length buf.old) }
        ensures writing_calls { KeepsWritingCalls tells_all (shown_of self.old) (shown_of self.new) }
        ensures one_stray { OneStray self.old self.new (is_stray_read (role_of self.old c.number) (length buf.old)) }
        ensures one_writing_call { OneWritingCall self.old self.new false }
        ensures counted { Counted self.old self.new result }
        ensures due { CannotRead self.old c.number → IsErr result }
        ensures refused { OnErr result (CannotRead self.old c.number) }
        ensures moves { IfOk result (λ n. n ≡ moved_by_read self.old c.number (length buf.old)) }
        ensures enough { short_of self.new ≡ short_of self.old }
        ensures same_next { channels_of self.new ≡ channels_of self.old }
    {
        let stray = stray_read(&self.channels, c.number, buf.len());
        let call = self.counts.next_call(Call {
            stray,
            writing: false,
        });
        if self.failing.contains(&call) {
            return Err(self.counts.refuse(Refusal::Fault));
        }
        match read(&mut self.channels, c.number, buf, self.piece) {
            Some(count) => Ok(count),
            None => Err(self.counts.refuse(Refusal::Fault)),
        }
    }

    /// Fails where only the last number is left for a channel.
    fn begin_write(&mut self, name: &str) -> Result<Chan, Failed>
        ensures cause { HasCause (faults_of self.old) (faults_of self.new) result }
        ensures begins { IfOk result (OpensForWriting self.old self.new name.now) }
        ensures unchanged { OnErr result (Same (shown_of self.old) (shown_of self.new)) }
        ensures strays { CountsStrays tells_all (shown_of self.old) (shown_of self.new) false }
        ensures writing_calls { CountsWritingCall tells_all (shown_of self.old) (shown_of self.new) true }
        ensures one_stray { OneStray self.old self.new false }
        ensures one_writing_call { OneWritingCall self.old self.new true }
        ensures counted { Counted self.old self.new result }
        ensures due { CannotBeginWriting self.old → IsErr result × (short_of self.new ≡ short_of self.old) }
        ensures refused { OnErr result (CannotBeginWriting self.old ⊎ RanShort self.old self.new) }
        ensures number { IfOk result (λ c. c.number ≡ channels_of self.old) }
        ensures next { OnOk result (channels_of self.new ≡ channels_of self.old + 1) }
        ensures same_next { OnErr result (channels_of self.new ≡ channels_of self.old) }
    {
        let call = self.counts.next_call(Call {
            stray: false,
            writing: true,
        });
        if self.failing.contains(&call) {
            return Err(self.counts.refuse(Refusal::Fault));
        }
        match begin_writing(self.alloc, &mut self.outputs, &mut self.channels, name) {
            Ok(number) => Ok(Chan { number }),
            Err(refusal) => Err(self.counts.refuse(refusal)),
        }
    }

    /// Fails at a channel that is not open for writing.
    fn write(&mut self, c: Chan, bytes: &[u8]) -> Result<usize, Failed>
        ensures cause { HasCause (faults_of self.old) (faults_of self.new) result }
        ensures writes { IfOk result (Writes tells_all (shown_of self.old) (shown_of self.new) c.number bytes.now) }
        ensures unchanged { OnErr result (Same (shown_of self.old) (shown_of self.new)) }
        ensures strays { StraysOnWrite tells_all (shown_of self.old) (shown_of self.new) c.number (length bytes.now) }
        ensures writing_calls { CountsWritingCall tells_all (shown_of self.old) (shown_of self.new) true }
        ensures one_stray { OneStray self.old self.new (is_stray_write (role_of self.old c.number) (length bytes.now)) }
        ensures one_writing_call { OneWritingCall self.old self.new true }
        ensures counted { Counted self.old self.new result }
        ensures due { CannotWrite self.old c.number → IsErr result × (short_of self.new ≡ short_of self.old) }
        ensures refused { OnErr result (CannotWrite self.old c.number ⊎ RanShort self.old self.new) }
        ensures moves { IfOk result (λ n. n ≡ min (length bytes.now) (piece_of self.old)) }
        ensures same_next { channels_of self.new ≡ channels_of self.old }
    {
        let stray = stray_write(&self.channels, c.number, bytes.len());
        let call = self.counts.next_call(Call {
            stray,
            writing: true,
        });
        if self.failing.contains(&call) {
            return Err(self.counts.refuse(Refusal::Fault));
        }
        match write_over(
            &mut self.outputs,
            &self.channels,
            c.number,
            bytes,
            self.piece,
        ) {
            Ok(count) => Ok(count),
            Err(refusal) => Err(self.counts.refuse(refusal)),
        }
    }

    /// Fails at a channel that is not open.
    fn end(&mut self, c: Chan) -> Result<(), Failed>
        ensures cause { HasCause (faults_of self.old) (faults_of self.new) result }
        ensures ends { IfOk result (λ _. Ends tells_all (shown_of self.old) (shown_of self.new) c.number) }
        ensures unchanged { OnErr result (Same (shown_of self.old) (shown_of self.new)) }
        ensures strays { StraysOnEnd tells_all (shown_of self.old) (shown_of self.new) c.number }
        ensures writing_calls { CountsEndOfWriting tells_all (shown_of self.old) (shown_of self.new) c.number }
        ensures one_stray { OneStray self.old self.new (is_stray_end (role_of self.old c.number)) }
        ensures one_writing_call { OneWritingCall self.old self.new (is_end_of_writing (role_of self.old c.number)) }
        ensures counted { Counted self.old self.new result }
        ensures due { CannotEnd self.old c.number → IsErr result }
        ensures refused { OnErr result (CannotEnd self.old c.number) }
        ensures enough { short_of self.new ≡ short_of self.old }
        ensures same_next { channels_of self.new ≡ channels_of self.old }
    {
        let stray = stray_end(&self.channels, c.number);
        let writing = end_of_writing(&self.channels, c.number);
        let call = self.counts.next_call(Call { stray, writing });
        if self.failing.contains(&call) {
            return Err(self.counts.refuse(Refusal::Fault));
        }
        if end_channel(&mut self.outputs, &mut self.channels, c.number) {
            Ok(())
        } else {
            Err(self.counts.refuse(Refusal::Fault))
        }
    }

    fn faults(&self) -> u64 {
        self.counts.faults
    }

    ghost told = { record {
      held = λ h. h;
      left = λ h. h;
      written = λ h. h;
      ended = λ h. h;
      strays = λ h. h;
      writing_calls = λ h. h;
    } };
}
