//! The version line.
ghost use Rattle.brep_tokens.specs.Scan.{IsHead};
ghost use Rattle.brep_tokens.specs.Tokens.{head_at, is_line, line_says, line_size, version_mark};
ghost use Rattle.std.specs.List.{starts_with};
ghost use Rattle.std.specs.Prelude.{◌≡◌, ◌+◌, ◌<◌, ◌≤◌, drop, length, nat_eq, true};

use crate::bytes::all_trailing;
use crate::fault::{ReadCode, ReadFault, fault};

const MARK: [u8; 18] = *b"CASCADE Topology V";

const FIRST: [u8; 41] = *b"CASCADE Topology V1, (c) Matra-Datavision";

const SECOND: [u8; 41] = *b"CASCADE Topology V2, (c) Matra-Datavision";

/// Where the line from a place on ends.
fn line_end(bytes: &[u8], at: usize) -> usize
    requires { at ≤ length bytes.now }
    ensures size { result ≡ at + line_size (drop at bytes.now) }
    ensures fits { result ≤ length bytes.now }
{
    let mut end = at;
    'line: while end < bytes.len() && bytes[end] != 10 {
        end += 1;
    }
    end
}

/// Is the line this text, perhaps with bytes 9, 13 and 32 after it?
fn is_text(text: &[u8; 41], line: &[u8]) -> bool
    ensures { result ≡ is_line text.now line.now }
{
    line.starts_with(text) && all_trailing(&line[41..])
}

#[tactic(auto, unfolding(crate::specs::Tokens::version_mark))]
fn starts_mark(rest: &[u8]) -> bool
    ensures { result ≡ starts_with nat_eq rest.now version_mark }
{
    rest.starts_with(&MARK)
}

/// Where the next line begins.
fn past_line(bytes: &[u8], end: usize) -> usize
    requires { end ≤ length bytes.now }
    ensures next { end < length bytes.now → result ≡ end + 1 }
    ensures none { length bytes.now ≤ end → result ≡ end }
    ensures fits { result ≤ length bytes.now }
{
    if end < bytes.len() { end + 1 } else { end }
}

/// What the line at a place says, which begins as a version line.
fn version_at(bytes: &[u8], at: usize, line: u64) -> Result<(u8, usize), ReadFault>
    requires { at ≤ length bytes.now }
    ensures { IsHead bytes.now result (line_says line at (drop at bytes.now)) }
{
    let end = line_end(bytes, at);
    let text = &bytes[at..end];
    let next = past_line(bytes, end);
    if is_text(&FIRST, text) {
        return Ok((1, next));
    }
    if is_text(&SECOND, text) {
        return Ok((2, next));
    }
    Err(fault(ReadCode::VersionNotRead, at, line, 0))
}

/// The version, and where the text after the version line begins.
pub(crate) fn head(bytes: &[u8]) -> Result<(u8, usize), ReadFault>
    ensures { IsHead bytes.now result (head_at true 1 0 bytes.now) }
{
    let mut at = 0usize;
    let mut line = 1u64;
    let mut start = true;
    'lines: while at < bytes.len() {
        if start && starts_mark(&bytes[at..]) {
            return version_at(bytes, at, line);
        }
        start = bytes[at] == 10;
        if start {
            line += 1;
        }
        at += 1;
    }
    Err(fault(ReadCode::NoVersion, bytes.len(), 0, 0))
}
