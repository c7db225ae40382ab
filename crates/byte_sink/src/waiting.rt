//! Bytes that wait on the stack until there are enough of them for a call of the desk.
ghost use Rattle.brep_desk.specs.Causes.{Rose};
ghost use Rattle.byte_sink.specs.Sending.{Sends, nothing_waits};
ghost use Rattle.std.specs.Prelude.{◌≡◌, ◌≤◌, [], OnErr, OnOk};

use arrayvec::ArrayVec;
use brep_desk::{Chan, Desk, WriteStop, write_all};
use std::marker::Model;

/// How many bytes wait at most.
const ROOM: usize = 4_096;

/// The last bytes of a text that is written over a channel, and how many bytes before them the channel took.
#[derive(Drop)]
pub struct WaitingBytes {
    bytes: ArrayVec<u8, ROOM>,
    taken: u64,
}

impl Model for WaitingBytes {
    ghost use Rattle.byte_sink.specs.Sending.{Waiting};
    ghost use Rattle.std.specs.Prelude.{◌<◌, ◌^◌};

    ghost Value = { Waiting };

    ghost view = { λ p. record { bytes = p.bytes.items; taken = p.taken } };

    ghost invariant = { λ p. p.taken < 2 ^ 64 };
}

impl WaitingBytes {
    /// Nothing waits, and nothing was taken.
    pub fn new() -> WaitingBytes
        ensures { result ≡ nothing_waits 0 }
    {
        WaitingBytes {
            bytes: ArrayVec::new(),
            taken: 0,
        }
    }

    /// How many bytes were taken, or the last number of 64 bits where there were more.
    pub fn taken(&self) -> u64
        ensures { result ≡ self.now.taken }
    {
        self.taken
    }

    /// Hands a piece to the desk, behind which nothing waits.
    fn pass<D: Desk>(&mut self, desk: &mut D, c: Chan, piece: &[u8]) -> Result<(), WriteStop>
        requires { self.old.bytes ≡ [] }
        ensures later { D.faults desk.old ≤ D.faults desk.new }
        ensures cause { OnErr result (Rose (D.faults desk.old) (D.faults desk.new)) }
        ensures no_fault { OnOk result (D.faults desk.new ≡ D.faults desk.old) }
        ensures sends { Sends D.tells (D.shows desk.old) (D.shows desk.new) c.number self.old self.new
            piece.now result }
    {
        match write_all(desk, c, piece) {
            Ok(()) => {
                self.taken = self.taken.saturating_add(piece.len() as u64);
                Ok(())
            }
            Err(stop) => Err(WriteStop {
                taken: self.taken.saturating_add(stop.taken),
            }),
        }
    }

    /// Hands all that waits to the desk.
    pub fn flush<D: Desk>(&mut self, desk: &mut D, c: Chan) -> Result<(), WriteStop>
        ensures later { D.faults desk.old ≤ D.faults desk.new }
        ensures cause { OnErr result (Rose (D.faults desk.old) (D.faults desk.new)) }
        ensures no_fault { OnOk result (D.faults desk.new ≡ D.faults desk.old) }
        ensures sends { Sends D.tells (D.shows desk.old) (D.shows desk.new) c.number self.old self.new [] result }
        ensures empty { OnOk result (self.new.bytes ≡ []) }
    {
        match write_all(desk, c, self.bytes.as_slice()) {
            Ok(()) => {
                self.taken = self.taken.saturating_add(self.bytes.len() as u64);
                self.bytes.clear();
                Ok(())
            }
            Err(stop) => Err(WriteStop {
                taken: self.taken.saturating_add(stop.taken),
            }),
        }
    }

    /// Adds a piece behind nothing. One that is longer than the array goes to the desk as it is.
    fn push_alone<D: Desk>(&mut self, desk: &mut D, c: Chan, piece: &[u8]) -> Result<(), WriteStop>
        requires { self.old.bytes ≡ [] }
        ensures later { D.faults desk.old ≤ D.faults desk.new }
        ensures cause { OnErr result (Rose (D.faults desk.old) (D.faults desk.new)) }
        ensures no_fault { OnOk result (D.faults desk.new ≡ D.faults desk.old) }
        ensures sends { Sends D.tells (D.shows desk.old) (D.shows desk.new) c.number self.old self.new
            piece.now result }
    {
        if self.bytes.try_extend_from_slice(piece).is_ok() {
            return Ok(());
        }
        self.pass(desk, c, piece)
    }

    /// Hands all that waits to the desk, and adds a piece.
    fn flush_and_push<D: Desk>(
        &mut self,
        desk: &mut D,
        c: Chan,
        piece: &[u8],
    ) -> Result<(), WriteStop>
        ensures later { D.faults desk.old ≤ D.faults desk.new }
        ensures cause { OnErr result (Rose (D.faults desk.old) (D.faults desk.new)) }
        ensures no_fault { OnOk result (D.faults desk.new ≡ D.faults desk.old) }
        ensures sends { Sends D.tells (D.shows desk.old) (D.shows desk.new) c.number self.old self.new
            piece.now result }
    {
        self.flush(desk, c)?;
        self.push_alone(desk, c, piece)
    }

    /// Adds a piece, after what waits was handed to the desk where there is no room for both.
    pub fn push<D: Desk>(&mut self, desk: &mut D, c: Chan, piece: &[u8]) -> Result<(), WriteStop>
        ensures later { D.faults desk.old ≤ D.faults desk.new }
        ensures cause { OnErr result (Rose (D.faults desk.old) (D.faults desk.new)) }
        ensures no_fault { OnOk result (D.faults desk.new ≡ D.faults desk.old) }
        ensures sends { Sends D.tells (D.shows desk.old) (D.shows desk.new) c.number self.old self.new
            piece.now result }
    {
        if self.bytes.try_extend_from_slice(piece).is_ok() {
            return Ok(());
        }
        self.flush_and_push(desk, c, piece)
    }
}
