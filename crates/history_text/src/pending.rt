//! Bytes that wait on the stack until there are enough of them for a call of the desk.
ghost use Rattle.brep_desk.specs.Causes.{Rose};
ghost use Rattle.history_text.specs.Sending.{Sends};
ghost use Rattle.std.specs.Prelude.{◌≡◌, ◌≤◌, [], length, OnErr, OnOk};

use arrayvec::ArrayVec;
use brep_desk::{Chan, Desk, WriteStop, write_all};
use std::marker::Model;

/// How many bytes wait at most.
const PIECE: usize = 8_192;

/// The last bytes of a text that is written by pieces, and how many bytes before them were taken.
#[derive(Drop)]
pub(crate) struct Pending {
    bytes: ArrayVec<u8, PIECE>,
    taken: u64,
}

impl Model for Pending {
    ghost use Rattle.history_text.specs.Sending.{Waiting};
    ghost use Rattle.std.specs.Prelude.{◌<◌, ◌^◌};

    ghost Value = { Waiting };

    ghost view = { λ p. record { bytes = p.bytes.items; taken = p.taken } };

    ghost invariant = { λ p. p.taken < 2 ^ 64 };
}

impl Pending {
    /// Nothing waits, and nothing was taken.
    pub(crate) fn new() -> Pending
        ensures { result ≡ record { bytes = []; taken = 0 } }
    {
        Pending {
            bytes: ArrayVec::new(),
            taken: 0,
        }
    }

    /// How many bytes were taken, or the last number of 64 bits where there were more.
    pub(crate) fn taken(&self) -> u64
        ensures { result ≡ self.now.taken }
    {
        self.taken
    }

    /// Hands all that waits to the desk.
    pub(crate) fn flush<D: Desk>(&mut self, desk: &mut D, c: Chan) -> Result<(), WriteStop>
        ensures later { D.faults desk.old ≤ D.faults desk.new }
        ensures cause { OnErr result (Rose (D.faults desk.old) (D.faults desk.new)) }
        ensures no_fault { OnOk result (D.faults desk.new ≡ D.faults desk.old) }
        ensures sends { Sends D.tells (D.shows desk.old) (D.shows desk.new) c.number self.old self.new [] result }
        ensures empty { OnOk result (self.new.bytes ≡ []) }
    {
        match write_all(desk, c, self.bytes.as_slice()) {
            Ok(()) => {
                self.taken = self.taken.saturating_add(self.bytes.len() as u64);
                self.bytes.clear();
                Ok(())
            }
            Err(stop) => Err(WriteStop {
                taken: self.taken.saturating_add(stop.taken),
            }),
        }
    }

    /// Adds a piece, after what waits was handed to the desk where there is no room for it.
    pub(crate) fn put<D: Desk>(
        &mut self,
        desk: &mut D,
        c: Chan,
        piece: &[u8],
    ) -> Result<(), WriteStop>
        requires { length piece.now ≤ 96 }
        ensures later { D.faults desk.old ≤ D.faults desk.new }
        ensures cause { OnErr result (Rose (D.faults desk.old) (D.faults desk.new)) }
        ensures no_fault { OnOk result (D.faults desk.new ≡ D.faults desk.old) }
        ensures sends { Sends D.tells (D.shows desk.old) (D.shows desk.new) c.number self.old self.new
            piece.now result }
    {
        if self.bytes.try_extend_from_slice(piece).is_ok() {
            return Ok(());
        }
        self.flush(desk, c)?;
        let _ = self.bytes.try_extend_from_slice(piece);
        Ok(())
    }
}
