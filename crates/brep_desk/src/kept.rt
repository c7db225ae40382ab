//! The calls of a desk in memory, over the files, the outputs and the channels that it keeps.
ghost use Rattle.std.specs.Prelude.{◌≡◌, ◌+◌, ◌≤◌, ◌-◌, ◌^◌, ◌<◌, ◌≢◌, ◌↔◌, length, min, IsTrue};
ghost use Rattle.std.specs.Prelude.{IfOk, IfErr, OnOk, OnErr, IsErrOf};
ghost use Rattle.std.specs.Bool.{OnTrue, OnFalse};
ghost use Rattle.brep_desk.specs.Shown.{closed};
ghost use Rattle.brep_desk.specs.Kept.{state_in, AllBegun, IsNotWriting};
ghost use Rattle.brep_desk.specs.Kept.{OpensInput, OpensOutput, FillsOutput, ClosesChannel, CannotOpenInput};
ghost use Rattle.brep_desk.specs.declared.channels.State.TheVariants as states;

use crate::channels::{Channel, State, close, is_full, open, written_name};
use crate::counts::Refusal;
use crate::names::{Bytes, NameText};
use crate::outputs::{Output, append, copy_name, finish, held, restart};
use std::alloc::Global;

/// A channel for reading, at the front of a copy of the bytes.
fn reader(alloc: Global, name: &str, bytes: &[u8]) -> Result<Channel, Refusal>
    ensures ok { IfOk result (λ c. c ≡ record { name = name.now; state = states.Reading; bytes = bytes.now; at = 0 }) }
    ensures short { IfErr result (λ e. e ≡ Refusal.NoMemory) }
{
    let name = match copy_name(alloc, name) {
        Ok(name) => name,
        Err(_) => return Err(Refusal::NoMemory),
    };
    match Vec::from_slice(alloc, bytes) {
        Ok(bytes) => Ok(Channel {
            name,
            state: State::Reading,
            bytes: Bytes::of(bytes),
            at: 0,
        }),
        Err(_) => Err(Refusal::NoMemory),
    }
}

/// Opens a channel for reading a file.
pub(crate) fn begin_reading(
    alloc: Global,
    files: &[(NameText, Bytes)],
    channels: &mut Vec<Channel>,
    name: &str,
) -> Result<u64, Refusal>
    ensures number { IfOk result (λ k. k ≡ length channels.old.items) }
    ensures begins { IfOk result (OpensInput files.now channels.old.items channels.new.items name.now) }
    ensures count { OnOk result (length channels.new.items ≡ length channels.old.items + 1) }
    ensures unchanged { OnErr result (channels.new.items ≡ channels.old.items) }
    ensures fault { IsErrOf result Refusal.Fault → CannotOpenInput files.now channels.old.items name.now }
    ensures due { CannotOpenInput files.now channels.old.items name.now → IsErrOf result Refusal.Fault }
{
    let bytes = match held(files, name) {
        Some(bytes) => bytes,
        None => return Err(Refusal::Fault),
    };
    if is_full(channels) {
        return Err(Refusal::Fault);
    }
    let channel = reader(alloc, name, bytes)?;
    open(channels, channel)
}

/// Opens a channel for writing a name anew.
pub(crate) fn begin_writing(
    alloc: Global,
    outputs: &mut Vec<Output>,
    channels: &mut Vec<Channel>,
    name: &str,
) -> Result<u64, Refusal>
    ensures number { IfOk result (λ k. k ≡ length channels.old.items) }
    ensures begins { IfOk result (OpensOutput outputs.old.items outputs.new.items
        channels.old.items channels.new.items name.now) }
    ensures count { OnOk result (length channels.new.items ≡ length channels.old.items + 1) }
    ensures outputs_stay { OnErr result (outputs.new.items ≡ outputs.old.items) }
    ensures channels_stay { OnErr result (channels.new.items ≡ channels.old.items) }
    ensures fault { IsErrOf result Refusal.Fault → 2 ^ 64 - 1 ≤ length channels.old.items }
    ensures due { 2 ^ 64 - 1 ≤ length channels.old.items → IsErrOf result Refusal.Fault }
{
    if is_full(channels) {
        return Err(Refusal::Fault);
    }
    let channel = match copy_name(alloc, name) {
        Ok(name) => Channel {
            name,
            state: State::Writing,
            bytes: Bytes::of(Vec::new(alloc)),
            at: 0,
        },
        Err(_) => return Err(Refusal::NoMemory),
    };
    let number = open(channels, channel)?;
    match restart(alloc, outputs, name) {
        Ok(()) => Ok(number),
        Err(_) => {
            channels.pop();
            Err(Refusal::NoMemory)
        }
    }
}

/// Appends the first bytes, at most `piece`, to the output of a channel, and answers how many.
pub(crate) fn write_over(
    outputs: &mut Vec<Output>,
    channels: &[Channel],
    number: u64,
    bytes: &[u8],
    piece: usize,
) -> Result<usize, Refusal>
    requires begun { AllBegun outputs.old.items channels.now }
    requires some { 0 < piece }
    ensures count { IfOk result (λ n. n ≡ min (length bytes.now) piece) }
    ensures writes { IfOk result (FillsOutput outputs.old.items outputs.new.items channels.now number bytes.now) }
    ensures unchanged { OnErr result (outputs.new.items ≡ outputs.old.items) }
    ensures fault { IsErrOf result Refusal.Fault → IsNotWriting (state_in channels.now number) }
    ensures due { IsNotWriting (state_in channels.now number) → IsErrOf result Refusal.Fault }
{
    let name = match written_name(channels, number) {
        Some(name) => name,
        None => return Err(Refusal::Fault),
    };
    let count = bytes.len().min(piece);
    match append(outputs, name, &bytes[..count]) {
        Ok(()) => Ok(count),
        Err(_) => Err(Refusal::NoMemory),
    }
}

/// Closes a channel, and marks the output of one of writing as whole. False where it is not open.
pub(crate) fn end_channel(outputs: &mut Vec<Output>, channels: &mut [Channel], number: u64) -> bool
    requires { AllBegun outputs.old.items channels.old }
    ensures ends { OnTrue result (ClosesChannel outputs.old.items outputs.new.items channels.old channels.new number) }
    ensures outputs_stay { OnFalse result (outputs.new.items ≡ outputs.old.items) }
    ensures channels_stay { OnFalse result (channels.new ≡ channels.old) }
    ensures fault { IsTrue result ↔ (state_in channels.old number ≢ closed) }
{
    if let Some(name) = written_name(channels, number) {
        finish(outputs, name);
    }
    close(channels, number)
}
