//! Channels of a desk in memory. Their numbers are never used again.
ghost use Rattle.std.specs.Prelude.{◌≡◌, ◌≢◌, ℕ, List, ◌<◌, ◌≤◌, ◌-◌, ◌^◌, [], ◌∷◌, ◌++◌, length, take, drop};
ghost use Rattle.std.specs.Prelude.{min, IfSome, IfNone, IfOk, IfErr, OnOk, OnErr, IsTrue, ◌↔◌, None, Some};
ghost use Rattle.std.specs.Bool.{OnTrue, OnFalse};
ghost use Rattle.brep_desk.specs.Shown.{closed, reading, writing, ChangesOnly, TakesOnly};
ghost use Rattle.brep_desk.specs.Kept.{left_in, state_in, state_of, IsNotReading, IsNotWriting};

use crate::counts::Refusal;
use crate::names::{Bytes, NameText};

/// What a channel is open for.
#[derive(Clone, Copy)]
pub(crate) enum State {
    Closed,
    Reading,
    Writing,
}

/// A channel over a name. One of reading has a copy of the bytes, so that it needs no file to read from, and keeps it
/// when it is closed; one of writing has none.
#[derive(Drop)]
pub(crate) struct Channel {
    pub(crate) name: NameText,
    pub(crate) state: State,
    pub(crate) bytes: Bytes,
    pub(crate) at: usize,
}

/// Whether the next channel would have the last number, which is given to none.
pub(crate) fn is_full(channels: &[Channel]) -> bool
    ensures { IsTrue result ↔ (2 ^ 64 - 1 ≤ length channels.now) }
{
    channels.len() as u64 == u64::MAX
}

/// Adds a channel, and answers its number.
pub(crate) fn open(channels: &mut Vec<Channel>, channel: Channel) -> Result<u64, Refusal>
    ensures number { IfOk result (λ k. k ≡ length channels.old.items) }
    ensures ok { OnOk result (channels.new.items ≡ channels.old.items ++ channel ∷ []) }
    ensures err { OnErr result (channels.new.items ≡ channels.old.items) }
    ensures short { IfErr result (λ e. e ≡ Refusal.NoMemory) }
{
    let number = channels.len() as u64;
    match channels.push(channel) {
        Ok(()) => Ok(number),
        Err(_) => Err(Refusal::NoMemory),
    }
}

/// Copies bytes from the front of `from` to the front of `to`, as many as there are, there is
/// room for and `piece` allows.
fn copy_piece(from: &[u8], to: &mut [u8], piece: usize) -> usize
    ensures count { result ≡ min (min (length from.now) (length to.old)) piece }
    ensures copied { take result to.new ≡ take result from.now }
{
    let count = from.len().min(to.len()).min(piece);
    let (front, _) = to.split_at_mut(count);
    front.copy_from_slice(&from[..count]);
    count
}

/// The bytes from `at` on.
fn rest(bytes: &[u8], at: usize) -> &[u8]
    ensures { result.now ≡ drop at bytes.now }
{
    let start = at.min(bytes.len());
    let (_, back) = bytes.split_at(start);
    back
}

/// Reads from a channel. None where it is not open for reading.
pub(crate) fn read(
    channels: &mut [Channel],
    number: u64,
    buf: &mut [u8],
    piece: usize,
) -> Option<usize>
    ensures none { IfNone result ((channels.new ≡ channels.old) × IsNotReading (state_in channels.old number)) }
    ensures reading { IfSome result (λ n. (name : List ℕ) × (state_in channels.old number ≡ reading name)) }
    ensures opened { state_in channels.new ≡ state_in channels.old }
    ensures count { IfSome result (λ n. n ≡ min (min (length (left_in channels.old number)) (length buf.old)) piece) }
    ensures left { IfSome result (TakesOnly (left_in channels.old) (left_in channels.new) number) }
    ensures given { IfSome result (λ n. take n buf.new ≡ take n (left_in channels.old number)) }
{
    let i = number as usize;
    if i >= channels.len() {
        return None;
    }
    let channel = &mut channels[i];
    match channel.state {
        State::Reading => {
            let count = copy_piece(rest(channel.bytes.bytes(), channel.at), buf, piece);
            channel.at += count;
            Some(count)
        }
        State::Closed | State::Writing => None,
    }
}

/// The name that a channel is open for writing to.
pub(crate) fn written_name(channels: &[Channel], number: u64) -> Option<&str>
    ensures some { IfSome result (λ name. state_in channels.now number ≡ writing name.now) }
    ensures none { IfNone result (IsNotWriting (state_in channels.now number)) }
{
    let i = number as usize;
    if i >= channels.len() {
        return None;
    }
    let channel = &channels[i];
    match channel.state {
        State::Writing => Some(channel.name.text()),
        State::Closed | State::Reading => None,
    }
}

/// Closes a channel. False where it is not open.
pub(crate) fn close(channels: &mut [Channel], number: u64) -> bool
    ensures was_open { IsTrue result ↔ (state_in channels.old number ≢ closed) }
    ensures unchanged { OnFalse result (channels.new ≡ channels.old) }
    ensures opened { OnTrue result (ChangesOnly (state_in channels.old) (state_in channels.new) number closed) }
    ensures left { left_in channels.new ≡ left_in channels.old }
{
    let i = number as usize;
    if i >= channels.len() {
        return false;
    }
    let channel = &mut channels[i];
    match channel.state {
        State::Closed => false,
        State::Reading | State::Writing => {
            channel.state = State::Closed;
            true
        }
    }
}
