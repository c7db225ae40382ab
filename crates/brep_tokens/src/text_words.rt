//! Where the words of a text begin and end.
ghost use Rattle.brep_tokens.specs.Bytes.{is_white};
ghost use Rattle.brep_tokens.specs.Scan.{FirstWord};
ghost use Rattle.brep_tokens.specs.Tokens.{is_joined, runs_at};
ghost use Rattle.std.specs.Prelude.{◌≡◌, ℕ, ◌<◌, ◌≤◌, drop, false, length, slice_index, true};

use crate::bytes::{all_digits, white};
use crate::forms::place;

/// Is the run digits followed directly by a continuity word?
fn joined(run: &[u8]) -> bool
    ensures { result ≡ is_joined run.now }
{
    let size = run.len();
    if size < 3 {
        return false;
    }
    place(run[size - 2], run[size - 1]).is_some() && all_digits(&run[..size - 2])
}

/// Where the white space from a place on ends.
fn white_end(bytes: &[u8], at: usize) -> usize
    requires { at ≤ length bytes.now }
    ensures range { (at ≤ result) × (result ≤ length bytes.now) }
    ensures same { runs_at result (drop result bytes.now) ≡ runs_at at (drop at bytes.now) }
    ensures stops { result < length bytes.now → is_white (slice_index bytes.now result) ≡ false }
{
    let mut end = at;
    'white: while end < bytes.len() && white(bytes[end]) {
        end += 1;
    }
    end
}

/// Where the run of other bytes from a place on ends.
fn dark_end(bytes: &[u8], at: usize) -> usize
    requires { at ≤ length bytes.now }
    ensures range { (at ≤ result) × (result ≤ length bytes.now) }
    ensures dark { (k : ℕ) → at ≤ k → k < result → is_white (slice_index bytes.now k) ≡ false }
    ensures stops { result < length bytes.now → is_white (slice_index bytes.now result) ≡ true }
{
    let mut end = at;
    'dark: while end < bytes.len() && !white(bytes[end]) {
        end += 1;
    }
    end
}

/// Where the first word from a place on starts and ends.
pub(crate) fn first_word(bytes: &[u8], at: usize) -> Option<(usize, usize)>
    requires { at ≤ length bytes.now }
    ensures { FirstWord bytes.now at result }
{
    let start = white_end(bytes, at);
    if start == bytes.len() {
        return None;
    }
    let end = dark_end(bytes, start);
    if joined(&bytes[start..end]) {
        Some((start, end - 2))
    } else {
        Some((start, end))
    }
}
