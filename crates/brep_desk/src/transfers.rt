//! Whole reads and whole writes over a desk.
ghost use Rattle.std.specs.Prelude.{◌≡◌, ◌≢◌, ◌+◌, ◌<◌, ◌≤◌, ◌^◌, ◌-◌, [], length, OnErr, OnOk, IfOk, IfErr, IsErrOf};
ghost use Rattle.brep_desk.specs.Causes.{Rose};
ghost use Rattle.brep_desk.specs.Strays.{NoStrayOnReading, NoStrayOnWriting, NoStrayOnHeld};
ghost use Rattle.brep_desk.specs.WritingCalls.{KeepsWritingCalls, NoFewerWritingCalls, RoseWritingCalls};
ghost use Rattle.brep_desk.specs.Transfers.{AppendedAll, AppendedUpTo, NothingWritten, OpensNone};
ghost use Rattle.brep_desk.specs.Transfers.{IsAllLeft, IsMoreLeft, IsAllHeld, IsLonger};
ghost use Rattle.brep_desk.specs.Transfers.{TakesOfChannel, LeavesOthers, TakesOfName};

use crate::desk::{Chan, Desk};
use std::alloc::Global;

/// How many bytes are asked for in one call.
const PIECE: u64 = 65_536;

/// Why a whole read stopped.
#[derive(Clone, Copy, Debug, PartialEq, Eq)]
pub enum ReadAll {
    /// A call of the desk failed.
    Failed,
    /// More bytes than the limit were given.
    TooLong,
    NoMemory,
}

/// A write that a failed call of the desk stopped after this many bytes.
#[derive(Clone, Copy, Debug, PartialEq, Eq)]
pub struct WriteStop {
    pub taken: u64,
}

/// Appends all bytes to what is written over the channel.
pub fn write_all<D: Desk>(desk: &mut D, c: Chan, bytes: &[u8]) -> Result<(), WriteStop>
    ensures later { D.faults desk.old ≤ D.faults desk.new }
    ensures cause { OnErr result (Rose (D.faults desk.old) (D.faults desk.new)) }
    ensures no_fault { OnOk result (D.faults desk.new ≡ D.faults desk.old) }
    ensures whole { OnOk result (AppendedAll D.tells (D.shows desk.old) (D.shows desk.new) c.number bytes.now) }
    ensures part { IfErr result (AppendedUpTo D.tells (D.shows desk.old) (D.shows desk.new) c.number bytes.now) }
    ensures stops_early { IfErr result (λ e. e.taken < length bytes.now) }
    ensures strays { NoStrayOnWriting D.tells (D.shows desk.old) (D.shows desk.new) c.number }
    ensures writing_calls { NoFewerWritingCalls D.tells (D.shows desk.old) (D.shows desk.new) }
    ensures calls { 0 < length bytes.now → RoseWritingCalls D.tells (D.shows desk.old) (D.shows desk.new) }
    ensures no_call { bytes.now ≡ [] → desk.new ≡ desk.old }
{
    let mut taken = 0usize;
    while taken < bytes.len() {
        match desk.write(c, &bytes[taken..]) {
            Ok(count) => taken += count,
            Err(_) => {
                return Err(WriteStop {
                    taken: taken as u64,
                });
            }
        }
    }
    Ok(())
}

/// Reads what is left of a channel, or one byte more than the limit.
fn read_rest<D: Desk>(alloc: Global, desk: &mut D, c: Chan, limit: u64) -> Result<Vec<u8>, ReadAll>
    requires { limit < 2 ^ 64 - 1 }
    ensures later { D.faults desk.old ≤ D.faults desk.new }
    ensures quiet { NothingWritten D.tells (D.shows desk.old) (D.shows desk.new) }
    ensures opened { (D.shows desk.new).opened ≡ (D.shows desk.old).opened }
    ensures whole { IfOk result (λ bytes. IsAllLeft D.tells (D.shows desk.old) c.number limit bytes.items) }
    ensures failed { IsErrOf result ReadAll.Failed → Rose (D.faults desk.old) (D.faults desk.new) }
    ensures no_fault { OnOk result (D.faults desk.new ≡ D.faults desk.old) }
    ensures no_fault_else { IfErr result (λ e. e ≢ ReadAll.Failed → D.faults desk.new ≡ D.faults desk.old) }
    ensures too_long { IsErrOf result ReadAll.TooLong → IsMoreLeft D.tells (D.shows desk.old) c.number limit }
    ensures takes { TakesOfChannel D.tells (D.shows desk.old) (D.shows desk.new) c.number (limit + 1) }
    ensures others { LeavesOthers D.tells (D.shows desk.old) (D.shows desk.new) c.number }
    ensures strays { NoStrayOnReading D.tells (D.shows desk.old) (D.shows desk.new) c.number }
    ensures writing_calls { KeepsWritingCalls D.tells (D.shows desk.old) (D.shows desk.new) }
{
    let mut bytes = Vec::new(alloc);
    let mut buf = [0u8; PIECE as usize];
    'pieces: while bytes.len() as u64 <= limit {
        let room = (limit - bytes.len() as u64 + 1).min(PIECE) as usize;
        match desk.read(c, &mut buf[..room]) {
            Err(_) => return Err(ReadAll::Failed),
            Ok(0) => return Ok(bytes),
            Ok(count) => {
                if bytes.extend_from_slice(&buf[..count]).is_err() {
                    return Err(ReadAll::NoMemory);
                }
            }
        }
    }
    Err(ReadAll::TooLong)
}

/// Reads the name to its end, or to one byte past the limit, and closes the channel. A channel
/// over which a call failed, or for whose bytes there was no memory, stays open.
pub fn read_all<D: Desk>(
    alloc: Global,
    desk: &mut D,
    name: &str,
    limit: u64,
) -> Result<Vec<u8>, ReadAll>
    requires { limit < 2 ^ 64 - 1 }
    ensures later { D.faults desk.old ≤ D.faults desk.new }
    ensures quiet { NothingWritten D.tells (D.shows desk.old) (D.shows desk.new) }
    ensures whole { IfOk result (λ bytes. IsAllHeld D.tells (D.shows desk.old) name.now limit bytes.items) }
    ensures failed { IsErrOf result ReadAll.Failed → Rose (D.faults desk.old) (D.faults desk.new) }
    ensures no_fault { OnOk result (D.faults desk.new ≡ D.faults desk.old) }
    ensures no_fault_else { IfErr result (λ e. e ≢ ReadAll.Failed → D.faults desk.new ≡ D.faults desk.old) }
    ensures too_long { IsErrOf result ReadAll.TooLong → IsLonger D.tells (D.shows desk.old) name.now limit }
    ensures closes { OnOk result (OpensNone D.tells (D.shows desk.old) (D.shows desk.new)) }
    ensures closes_too_long { IsErrOf result ReadAll.TooLong → OpensNone D.tells (D.shows desk.old) (D.shows desk.new) }
    ensures strays { NoStrayOnHeld D.tells (D.shows desk.old) (D.shows desk.new) name.now }
    ensures writing_calls { KeepsWritingCalls D.tells (D.shows desk.old) (D.shows desk.new) }
    ensures takes { TakesOfName D.tells (D.shows desk.old) (D.shows desk.new) name.now (limit + 1) }
{
    let c = match desk.begin_read(name) {
        Ok(c) => c,
        Err(_) => return Err(ReadAll::Failed),
    };
    let outcome = read_rest(alloc, desk, c, limit);
    match outcome {
        Ok(bytes) => match desk.end(c) {
            Ok(()) => Ok(bytes),
            Err(_) => Err(ReadAll::Failed),
        },
        Err(ReadAll::TooLong) => match desk.end(c) {
            Ok(()) => Err(ReadAll::TooLong),
            Err(_) => Err(ReadAll::Failed),
        },
        Err(e) => Err(e),
    }
}
