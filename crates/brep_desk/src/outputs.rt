//! Names with their bytes, kept in memory: those that are held, and those that were written.
ghost use Rattle.std.specs.Prelude.{◌≡◌, ◌<◌, [], length, IfSome, IfNone, OnOk, OnErr, IfOk, None, Some, true, false};
ghost use Rattle.brep_desk.specs.Shown.{ChangesOnly};
ghost use Rattle.brep_desk.specs.Kept.{held_in, written_in, ended_in, Shows, IsPlace, IsBegun, Empties, Appends};

use crate::names::{Bytes, NameText};
use std::alloc::{AllocError, Global};

/// What was written under a name.
#[derive(Drop)]
pub(crate) struct Output {
    pub(crate) name: NameText,
    pub(crate) bytes: Bytes,
    pub(crate) ended: bool,
}

/// The bytes of the first file with the name. There are few files.
pub(crate) fn held<'a>(files: &'a [(NameText, Bytes)], name: &str) -> Option<&'a [u8]>
    ensures { Shows result (held_in files.now name.now) }
{
    match files {
        [] => None,
        [file, rest @ ..] => {
            if file.0.text() == name {
                Some(file.1.bytes())
            } else {
                held(rest, name)
            }
        }
    }
}

/// Where the first output with the name stands. There are few outputs.
pub(crate) fn place(outputs: &[Output], name: &str) -> Option<usize>
    ensures some { IfSome result (λ i. (i < length outputs.now) × IsPlace outputs.now name.now i) }
    ensures none { IfNone result (written_in outputs.now name.now ≡ None) }
{
    match outputs {
        [] => None,
        [output, rest @ ..] => {
            if output.name.text() == name {
                return Some(0);
            }
            match place(rest, name) {
                Some(i) => Some(i + 1),
                None => None,
            }
        }
    }
}

/// The bytes of the first output with the name.
pub(crate) fn written<'a>(outputs: &'a [Output], name: &str) -> Option<&'a [u8]>
    ensures { Shows result (written_in outputs.now name.now) }
{
    match outputs {
        [] => None,
        [output, rest @ ..] => {
            if output.name.text() == name {
                Some(output.bytes.bytes())
            } else {
                written(rest, name)
            }
        }
    }
}

/// Whether the first output with the name is whole.
pub(crate) fn is_whole(outputs: &[Output], name: &str) -> bool
    ensures { result ≡ ended_in outputs.now name.now }
{
    match outputs {
        [] => false,
        [output, rest @ ..] => {
            if output.name.text() == name {
                output.ended
            } else {
                is_whole(rest, name)
            }
        }
    }
}

/// A copy of a name.
pub(crate) fn copy_name(alloc: Global, name: &str) -> Result<NameText, AllocError>
    ensures { IfOk result (λ n. n ≡ name.now) }
{
    let text = String::from_str(alloc, name)?;
    Ok(NameText::of(text))
}

/// Begins the output with the name anew, or adds it.
pub(crate) fn restart(
    alloc: Global,
    outputs: &mut Vec<Output>,
    name: &str,
) -> Result<(), AllocError>
    ensures written { OnOk result (Empties outputs.old.items outputs.new.items name.now) }
    ensures ended { OnOk result (ChangesOnly (ended_in outputs.old.items) (ended_in outputs.new.items) name.now false) }
    ensures err { OnErr result (outputs.new.items ≡ outputs.old.items) }
{
    match place(outputs, name) {
        Some(i) => {
            let output = &mut outputs[i];
            output.bytes.clear();
            output.ended = false;
            Ok(())
        }
        None => {
            let output = Output {
                name: copy_name(alloc, name)?,
                bytes: Bytes::of(Vec::new(alloc)),
                ended: false,
            };
            outputs.push(output)?;
            Ok(())
        }
    }
}

/// Appends bytes to the output with the name.
pub(crate) fn append(outputs: &mut Vec<Output>, name: &str, bytes: &[u8]) -> Result<(), AllocError>
    requires { IsBegun outputs.old.items name.now }
    ensures written { OnOk result (Appends outputs.old.items outputs.new.items name.now bytes.now) }
    ensures ended { OnOk result (ended_in outputs.new.items ≡ ended_in outputs.old.items) }
    ensures err { OnErr result (outputs.new.items ≡ outputs.old.items) }
{
    match place(outputs, name) {
        Some(i) => {
            let output = &mut outputs[i];
            output.bytes.append(bytes)?;
            Ok(())
        }
        None => Ok(()),
    }
}

/// Marks the output with the name as whole.
pub(crate) fn finish(outputs: &mut Vec<Output>, name: &str)
    requires { IsBegun outputs.old.items name.now }
    ensures written { written_in outputs.new.items ≡ written_in outputs.old.items }
    ensures ended { ChangesOnly (ended_in outputs.old.items) (ended_in outputs.new.items) name.now true }
{
    if let Some(i) = place(outputs, name) {
        let output = &mut outputs[i];
        output.ended = true;
    }
}
