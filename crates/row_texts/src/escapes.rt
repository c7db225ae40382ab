//! Texts that stand on one line of the input.
use std::alloc::{AllocError, Global};

/// The byte that is meant by one behind a `\`: the end of a line, a byte 13, a tab, a space, or the byte itself.
fn meant(byte: u8) -> u8 {
    match byte {
        b'n' => b'\n',
        b'r' => b'\r',
        b't' => b'\t',
        b's' => b' ',
        other => other,
    }
}

/// The bytes of a text in which `\n`, `\r`, `\t` and `\s` stand for the bytes 10, 13, 9 and 32, and `\\` for `\`.
pub(crate) fn unescaped(alloc: Global, text: &str) -> Result<Vec<u8>, AllocError> {
    let mut bytes = Vec::new(alloc);
    let mut behind = false;
    for byte in text.as_bytes() {
        if behind {
            bytes.push(meant(*byte))?;
            behind = false;
        } else if *byte == b'\\' {
            behind = true;
        } else {
            bytes.push(*byte)?;
        }
    }
    Ok(bytes)
}

/// The bytes so many times.
pub(crate) fn repeated(alloc: Global, bytes: &[u8], times: u64) -> Result<Vec<u8>, AllocError> {
    if let [byte] = bytes {
        return vec![in alloc; *byte; times as usize];
    }
    let mut all = Vec::new(alloc);
    for _ in 0..times {
        all.extend_from_slice(bytes)?;
    }
    Ok(all)
}

/// Adds the bytes, with the number in the place of each `@`.
fn add_numbered(all: &mut Vec<u8>, bytes: &[u8], number: &[u8]) -> Result<(), AllocError> {
    for byte in bytes {
        if *byte == b'@' {
            all.extend_from_slice(number)?;
        } else {
            all.push(*byte)?;
        }
    }
    Ok(())
}

/// The bytes once for each number from the first to the last, up or down, with the number in the place of each `@`.
pub(crate) fn numbered(
    alloc: Global,
    bytes: &[u8],
    first: u64,
    last: u64,
) -> Result<Vec<u8>, AllocError> {
    let mut all = Vec::new(alloc);
    for step in 0..=first.abs_diff(last) {
        let number = if first < last {
            first.saturating_add(step)
        } else {
            first.saturating_sub(step)
        };
        let text = format!(in alloc; "{number}")?;
        add_numbered(&mut all, bytes, text.as_str().as_bytes())?;
    }
    Ok(all)
}
