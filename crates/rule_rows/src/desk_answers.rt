//! What is answered to each call of a desk in memory.
ghost use Rattle.std.specs.Prelude.{◌<◌};

use brep_desk::{Chan, Desk, Failed, MemoryDesk, ReadAll, read_all, write_all};
use std::alloc::Global;
use tree_texts::{Missed, counted, cut, number, said, small, yes};

/// A channel of a number.
fn chan(text: &str) -> Result<Chan, Missed> {
    Ok(Chan {
        number: number(text)?,
    })
}

/// The number of a channel.
fn opened(alloc: Global, answer: Result<Chan, Failed>) -> Result<String, Missed> {
    match answer {
        Ok(c) => counted(alloc, c.number),
        Err(Failed) => said(alloc, "failed"),
    }
}

/// Bytes as a text, with a dot for each zero.
fn bytes_said(alloc: Global, bytes: &[u8]) -> Result<String, Missed> {
    let mut text = String::new(alloc);
    for b in bytes {
        let shown = if *b == 0 { b'.' } else { *b };
        text.push(char::from(shown))?;
    }
    Ok(text)
}

/// `CHANNEL ROOM`: how many bytes were read into that much of the buffer, and the whole buffer.
fn read(
    alloc: Global,
    desk: &mut MemoryDesk,
    buffer: &mut [u8; 8],
    text: &str,
) -> Result<String, Missed> {
    let (channel, room) = cut(text, " ")?;
    let c = chan(channel)?;
    let room = small(room)? as usize;
    if room > 8 {
        return Err(Missed::Unclear);
    }
    match desk.read(c, &mut buffer[..room]) {
        Ok(count) => {
            let whole = bytes_said(alloc, buffer.as_slice())?;
            let whole = whole.as_str();
            Ok(format!(in alloc; "{count} {whole}")?)
        }
        Err(Failed) => said(alloc, "failed"),
    }
}

/// `CHANNEL TEXT`: how many bytes were taken in one call.
fn write(alloc: Global, desk: &mut MemoryDesk, text: &str) -> Result<String, Missed> {
    let (channel, bytes) = cut(text, " ")?;
    match desk.write(chan(channel)?, bytes.as_bytes()) {
        Ok(count) => counted(alloc, count as u64),
        Err(Failed) => said(alloc, "failed"),
    }
}

/// `CHANNEL TEXT`: whether all was taken.
fn put(alloc: Global, desk: &mut MemoryDesk, text: &str) -> Result<String, Missed> {
    let (channel, bytes) = cut(text, " ")?;
    match write_all(desk, chan(channel)?, bytes.as_bytes()) {
        Ok(()) => said(alloc, "all"),
        Err(stop) => {
            let taken = stop.taken;
            Ok(format!(in alloc; "stopped {taken}")?)
        }
    }
}

/// `CHANNEL`: whether it was open, and is now closed.
fn end(alloc: Global, desk: &mut MemoryDesk, text: &str) -> Result<String, Missed> {
    match desk.end(chan(text)?) {
        Ok(()) => said(alloc, "done"),
        Err(Failed) => said(alloc, "failed"),
    }
}

/// `NAME LIMIT`: all bytes of a name.
fn whole(alloc: Global, desk: &mut MemoryDesk, text: &str) -> Result<String, Missed> {
    let (name, limit) = cut(text, " ")?;
    let limit = small(limit)?;
    match read_all(alloc, desk, name, u64::from(limit)) {
        Ok(bytes) => bytes_said(alloc, bytes.as_slice()),
        Err(ReadAll::Failed) => said(alloc, "failed"),
        Err(ReadAll::TooLong) => said(alloc, "too long"),
        Err(ReadAll::NoMemory) => Err(Missed::NoMemory),
    }
}

/// `NAME`: what was written under it.
fn written(alloc: Global, desk: &MemoryDesk, name: &str) -> Result<String, Missed> {
    match desk.written(name) {
        Some(bytes) => if bytes.is_empty() {
            said(alloc, "nothing")
        } else {
            bytes_said(alloc, bytes)
        },
        None => said(alloc, "never"),
    }
}

/// The answer to a call that changes the desk.
pub(crate) fn changed(
    alloc: Global,
    desk: &mut MemoryDesk,
    buffer: &mut [u8; 8],
    what: &str,
    text: &str,
) -> Result<String, Missed> {
    match what {
        "open" => opened(alloc, desk.begin_read(text)),
        "create" => opened(alloc, desk.begin_write(text)),
        "read" => read(alloc, desk, buffer, text),
        "write" => write(alloc, desk, text),
        "end" => end(alloc, desk, text),
        "all" => whole(alloc, desk, text),
        "put" => put(alloc, desk, text),
        _ => shown(alloc, desk, what, text),
    }
}

/// The answer to a question.
fn shown(alloc: Global, desk: &MemoryDesk, what: &str, text: &str) -> Result<String, Missed> {
    match what {
        "written" => written(alloc, desk, text),
        "ended" => yes(alloc, desk.ended(text)),
        "faults" => counted(alloc, desk.faults()),
        "short" => counted(alloc, desk.short()),
        _ => Err(Missed::Unclear),
    }
}
