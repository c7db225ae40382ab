//! Files and standard streams as a desk, which tells nothing of what they hold: the trusted edge of the program.
ghost use Rattle.std.specs.Prelude.{◌≡◌, ◌+◌, ◌-◌, ◌^◌, min};
ghost use Rattle.brep_desk.specs.Causes.{HasCause};
ghost use Rattle.brep_desk.specs.Shown.{tells_nothing, shows_nothing};

use brep_desk::{Chan, Desk, Failed};
use std::fs;
use std::fs::File;
use std::io::{Read, Stdin, Stdout, Write};

/// What a channel is open for.
#[derive(Drop)]
enum Slot {
    Closed,
    Input,
    Output,
    Reading(File),
    Writing(File),
}

/// Files by their paths. The name `-` is standard input where it is read, and standard output where it is written. Each
/// error of the system counts as a fault.
#[derive(Drop)]
pub struct DiskDesk<'a> {
    rt: &'a HostRuntime,
    input: Stdin,
    output: Stdout,
    slots: Vec<Slot>,
    faults: u64,
}

impl<'a> DiskDesk<'a> {
    /// A desk with no channel open and no fault counted.
    pub fn new(rt: &'a HostRuntime) -> DiskDesk<'a>
        ensures { result.faults ≡ 0 }
    {
        DiskDesk {
            rt,
            input: rt.stdin(),
            output: rt.stdout(),
            slots: Vec::new(rt.alloc()),
            faults: 0,
        }
    }

    /// A new channel, closed. It is kept before anything is opened for it, so that want of memory leaves a file as it
    /// was.
    fn new_slot(&mut self) -> Result<Chan, Failed>
        ensures { HasCause self.old.faults self.new.faults result }
    {
        let number = self.slots.len() as u64;
        if self.slots.push(Slot::Closed).is_ok() {
            return Ok(Chan { number });
        }
        self.faults = raised(self.faults);
        Err(Failed)
    }

    /// Opens the channel for what was opened; a fault, where nothing was.
    fn fill(&mut self, c: Chan, opened: Option<Slot>) -> Result<Chan, Failed>
        ensures { HasCause self.old.faults self.new.faults result }
    {
        if let Some(filled) = opened {
            if let Some(slot) = self.slots.get_mut(c.number as usize) {
                *slot = filled;
                return Ok(c);
            }
        }
        self.faults = raised(self.faults);
        Err(Failed)
    }
}

/// One fault more; the count stays at its last value.
fn raised(faults: u64) -> u64
    ensures { result ≡ min (faults + 1) (2 ^ 64 - 1) }
{
    faults.saturating_add(1)
}

impl Desk for DiskDesk<'_> {
    ghost faults = { λ d. d.faults };

    ghost tells = { tells_nothing };

    ghost shows = { λ _. shows_nothing };

    ghost told = { record {
      held = λ h. h;
      left = λ h. h;
      written = λ h. h;
      ended = λ h. h;
      strays = λ h. h;
      writing_calls = λ h. h;
    } };

    fn begin_read(&mut self, name: &str) -> Result<Chan, Failed> {
        let c = self.new_slot()?;
        let opened = if name == "-" {
            Some(Slot::Input)
        } else {
            fs::open(self.rt, name).ok().map(Slot::Reading)
        };
        self.fill(c, opened)
    }

    fn read(&mut self, c: Chan, buf: &mut [u8]) -> Result<usize, Failed> {
        let answer = match self.slots.get_mut(c.number as usize) {
            Some(Slot::Input) => self.input.read(buf).ok(),
            Some(Slot::Reading(file)) => file.read(buf).ok(),
            _ => None,
        };
        if answer.is_none() {
            self.faults = raised(self.faults);
        }
        answer.ok_or(Failed)
    }

    fn begin_write(&mut self, name: &str) -> Result<Chan, Failed> {
        let c = self.new_slot()?;
        let opened = if name == "-" {
            Some(Slot::Output)
        } else {
            fs::create(self.rt, name).ok().map(Slot::Writing)
        };
        self.fill(c, opened)
    }

    fn write(&mut self, c: Chan, bytes: &[u8]) -> Result<usize, Failed> {
        let answer = match self.slots.get_mut(c.number as usize) {
            Some(Slot::Output) => self.output.write(bytes).ok(),
            Some(Slot::Writing(file)) => file.write(bytes).ok(),
            _ => None,
        };
        match answer {
            Some(count) if count > 0 || bytes.is_empty() => Ok(count),
            _ => {
                self.faults = raised(self.faults);
                Err(Failed)
            }
        }
    }

    fn end(&mut self, c: Chan) -> Result<(), Failed> {
        match self.slots.get_mut(c.number as usize) {
            None | Some(Slot::Closed) => {
                self.faults = raised(self.faults);
                Err(Failed)
            }
            Some(slot) => {
                *slot = Slot::Closed;
                Ok(())
            }
        }
    }

    fn faults(&self) -> u64 {
        self.faults
    }
}
