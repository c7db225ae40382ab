//! Whether a call of a desk in memory is a stray one, and whether it is one of writing, by the files and channels
//! that it keeps.
ghost use Rattle.std.specs.Prelude.{◌≡◌, ℕ, List};
ghost use Rattle.brep_desk.specs.Shown.{tells_all};
ghost use Rattle.brep_desk.specs.Kept.{held_in, state_in, state_over};
ghost use Rattle.brep_desk.specs.Strays.{is_stray_begin_read, is_stray_read, is_stray_write, is_stray_end};
ghost use Rattle.brep_desk.specs.WritingCalls.{is_end_of_writing};

use crate::channels::{Channel, State};
use crate::names::{Bytes, NameText};
use crate::outputs::held;

/// The state of the channel with the number. One that was never opened is closed.
fn state(channels: &[Channel], number: u64) -> State
    ensures { (name : List ℕ) × (state_in channels.now number ≡ state_over result name) }
{
    let i = number as usize;
    if i >= channels.len() {
        return State::Closed;
    }
    channels[i].state
}

/// Whether the reading of a name that is not held begins.
pub(crate) fn stray_begin_read(files: &[(NameText, Bytes)], name: &str) -> bool
    ensures { result ≡ is_stray_begin_read tells_all (held_in files.now name.now) }
{
    held(files, name).is_none()
}

/// Whether a read with so much room is one over a channel that is not open for it, or of no bytes.
pub(crate) fn stray_read(channels: &[Channel], number: u64, room: usize) -> bool
    ensures { result ≡ is_stray_read (state_in channels.now number) room }
{
    match state(channels, number) {
        State::Reading => room == 0,
        State::Closed | State::Writing => true,
    }
}

/// Whether a write of so many bytes is one over a channel that is not open for it, or of none.
pub(crate) fn stray_write(channels: &[Channel], number: u64, count: usize) -> bool
    ensures { result ≡ is_stray_write (state_in channels.now number) count }
{
    match state(channels, number) {
        State::Writing => count == 0,
        State::Closed | State::Reading => true,
    }
}

/// Whether the channel that is ended is not open.
pub(crate) fn stray_end(channels: &[Channel], number: u64) -> bool
    ensures { result ≡ is_stray_end (state_in channels.now number) }
{
    match state(channels, number) {
        State::Closed => true,
        State::Reading | State::Writing => false,
    }
}

/// Whether the channel that is ended is open for writing.
pub(crate) fn end_of_writing(channels: &[Channel], number: u64) -> bool
    ensures { result ≡ is_end_of_writing (state_in channels.now number) }
{
    match state(channels, number) {
        State::Writing => true,
        State::Closed | State::Reading => false,
    }
}
