//! What single lines say, each without the byte 10 that ends it.
ghost use Rattle.history_text.specs.HistoryText.{is_pair_below};
ghost use Rattle.history_text.specs.LineForms.{count_of_line, cut_at, is_above, is_same, last_of};
ghost use Rattle.history_text.specs.LineForms.{origin_due, pair_due, pair_of_line, removed_due};
ghost use Rattle.std.specs.Prelude.{◌≡◌, ℕ, ◌<◌, ◌≤◌, ◌==◌, MatchOption, None, Some, false, length, nat_lt};
ghost use Rattle.std.specs.Prelude.{slice_index, true};

use crate::pairs::NumberPairs;
use brep_tokens::{Numbers, number};

/// How many bytes stand before the first one like this, or all.
fn size_before(bytes: &[u8], c: u8) -> usize
    ensures fits { result ≤ length bytes.now }
    ensures others { (k : ℕ) → k < result → (slice_index bytes.now k == c) ≡ false }
    ensures stops { result < length bytes.now → (slice_index bytes.now result == c) ≡ true }
{
    let mut size = 0usize;
    'bytes: while size < bytes.len() && bytes[size] != c {
        size += 1;
    }
    size
}

/// What stands before the first byte like this one, and what follows it.
pub(crate) fn cut_at(bytes: &[u8], c: u8) -> Option<(&[u8], &[u8])>
    ensures { MatchOption result (cut_at c bytes.now ≡ None) (λ cut. cut_at c bytes.now ≡ Some (cut.0.now, cut.1.now)) }
{
    let size = size_before(bytes, c);
    if size == bytes.len() {
        return None;
    }
    Some((&bytes[..size], &bytes[size + 1..]))
}

/// Is the line just this text?
pub(crate) fn is_same(line: &[u8], text: &[u8]) -> bool
    ensures { result ≡ is_same line.now text.now }
{
    line == text
}

/// The count after a word and a space.
pub(crate) fn count_of_line(word: &[u8], line: &[u8]) -> Option<u64>
    ensures { result ≡ count_of_line word.now line.now }
{
    let (first, second) = cut_at(line, b' ')?;
    if is_same(first, word) {
        number(second)
    } else {
        None
    }
}

/// Two numbers with a space between.
fn pair_of_line(line: &[u8]) -> Option<(u64, u64)>
    ensures { result ≡ pair_of_line line.now }
{
    let (first, second) = cut_at(line, b' ')?;
    let input = number(first)?;
    let written = number(second)?;
    Some((input, written))
}

/// The origin of the next written number.
pub(crate) fn origin_due(said: &Numbers, line: &[u8]) -> Option<u64>
    ensures { result ≡ origin_due said.now line.now }
{
    let (written, origin) = pair_of_line(line)?;
    if written > 0 && written - 1 == said.len() as u64 {
        Some(origin)
    } else {
        None
    }
}

/// Does the pair come after the last of these?
#[tactic(auto, using(crate::proofs::LineCuts::last_is))]
fn pair_ascends(said: &NumberPairs, pair: &(u64, u64)) -> bool
    ensures { result ≡ is_above is_pair_below (last_of said.now) pair.now }
{
    match said.as_slice().last() {
        None => true,
        Some(last) => {
            if last.0 == pair.0 {
                last.1 < pair.1
            } else {
                last.0 < pair.0
            }
        }
    }
}

/// The pair of an input number and the number of one of so many written records, if it ascends.
pub(crate) fn pair_due(written: u64, said: &NumberPairs, line: &[u8]) -> Option<(u64, u64)>
    ensures { result ≡ pair_due written said.now line.now }
{
    let pair = pair_of_line(line)?;
    if 1 <= pair.1 && pair.1 <= written && pair_ascends(said, &pair) {
        Some(pair)
    } else {
        None
    }
}

/// Does the number come after the last of these?
#[tactic(auto, using(crate::proofs::LineCuts::last_is))]
fn number_ascends(said: &Numbers, number: u64) -> bool
    ensures { result ≡ is_above nat_lt (last_of said.now) number }
{
    match said.as_slice().last() {
        None => true,
        Some(last) => *last < number,
    }
}

/// The removed number, if it ascends.
pub(crate) fn removed_due(said: &Numbers, line: &[u8]) -> Option<u64>
    ensures { result ≡ removed_due said.now line.now }
{
    let removed = number(line)?;
    if number_ascends(said, removed) {
        Some(removed)
    } else {
        None
    }
}
