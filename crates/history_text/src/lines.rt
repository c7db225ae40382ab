//! Single lines of the text, on the stack.
ghost use Rattle.brep_tokens.specs.Written.{line_text};
ghost use Rattle.history_text.specs.HistoryText.{number_words, pair_words};
ghost use Rattle.std.specs.Fmt.{decimal};
ghost use Rattle.std.specs.Prelude.{◌≡◌, ◌∷◌, ◌≤◌, [], length};

use arrayvec::ArrayVec;
use itoa::Buffer;

/// Room for any line.
pub(crate) const ROOM: usize = 96;

pub(crate) type Line = ArrayVec<u8, ROOM>;

/// A line of one number.
pub(crate) fn number_line(n: u64) -> Line
    ensures { result.items ≡ line_text (number_words n) }
{
    let mut line = ArrayVec::new();
    let mut buffer = Buffer::new();
    let _ = line.try_extend_from_slice(buffer.format(n).as_bytes());
    let _ = line.try_push(b'\n');
    line
}

/// A line of two numbers.
pub(crate) fn pair_line(pair: &(u64, u64)) -> Line
    ensures { result.items ≡ line_text (pair_words pair.now) }
{
    let mut line = ArrayVec::new();
    let mut buffer = Buffer::new();
    let _ = line.try_extend_from_slice(buffer.format(pair.0).as_bytes());
    let _ = line.try_push(b' ');
    let _ = line.try_extend_from_slice(buffer.format(pair.1).as_bytes());
    let _ = line.try_push(b'\n');
    line
}

/// A line of a word and a count.
pub(crate) fn count_line(word: &[u8], count: usize) -> Line
    requires { length word.now ≤ 9 }
    ensures { result.items ≡ line_text (word.now ∷ decimal count ∷ []) }
{
    let mut line = ArrayVec::new();
    let mut buffer = Buffer::new();
    let _ = line.try_extend_from_slice(word);
    let _ = line.try_push(b' ');
    let _ = line.try_extend_from_slice(buffer.format(count).as_bytes());
    let _ = line.try_push(b'\n');
    line
}
