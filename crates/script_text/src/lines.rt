//! The lines of a script, given one after another.
ghost use Rattle.std.specs.Prelude.{◌≡◌, ◌≤◌, ◌<◌, ◌∷◌, length};
ghost use Rattle.std.specs.Iterator.{YieldsFirstRef, item_count};
ghost use Rattle.script_text.specs.Lines.{before_return, line_size, script_line_count, script_lines};
ghost use Rattle.script_text.specs.LinesLeft.{lines_left};

/// The lines of a script's bytes, in their order, each without its end. Takes no memory.
#[derive(Clone, Copy)]
pub struct Lines<'a> {
    rest: &'a [u8],
}

/// The lines of these bytes. A byte 10 ends a line, and a byte 13 directly before it isn't part of the line.
pub fn lines_of(bytes: &[u8]) -> Lines<'_>
    ensures { lines_left result ≡ script_lines bytes.now }
{
    Lines { rest: bytes }
}

/// How many bytes stand before the next byte 10.
fn size_of_line(bytes: &[u8]) -> usize
    ensures size { result ≡ line_size bytes.now }
    ensures fits { result ≤ length bytes.now }
{
    let mut size = 0usize;
    'line: while size < bytes.len() && bytes[size] != 10 {
        size += 1;
    }
    size
}

/// The line without a byte 13 at its end.
fn without_return(line: &[u8]) -> &[u8]
    ensures { result.now ≡ before_return line.now }
{
    let size = line.len();
    if size > 0 && line[size - 1] == 13 {
        &line[..size - 1]
    } else {
        line
    }
}

/// The first line, and what follows its end.
fn first_line(bytes: &[u8]) -> (&[u8], &[u8])
    requires { 0 < length bytes.now }
    ensures lines { script_lines bytes.now ≡ result.0.now ∷ script_lines result.1.now }
    ensures less { length result.1.now < length bytes.now }
{
    let (line, end) = bytes.split_at(size_of_line(bytes));
    if end.is_empty() {
        return (line, end);
    }
    let (_end, next) = end.split_at(1);
    (without_return(line), next)
}

impl<'a> Iterator for Lines<'a> {
    type Item = &'a [u8];

    ghost next_gives = { YieldsFirstRef lines_left };

    ghost remaining = { item_count lines_left };

    fn next(&mut self) -> Option<&'a [u8]> {
        if self.rest.is_empty() {
            return None;
        }
        let (line, next) = first_line(self.rest);
        self.rest = next;
        Some(line)
    }
}

/// How many bytes 10 there are, and one more where bytes follow the last of them.
fn counted(bytes: &[u8]) -> u64
    ensures { result ≡ script_line_count bytes.now }
{
    let mut count = 0u64;
    let mut open = false;
    'bytes: for b in bytes {
        open = *b != 10;
        if !open {
            count += 1;
        }
    }
    if open { count + 1 } else { count }
}

/// How many lines these bytes have.
#[tactic(auto, using(crate::proofs::LineLemmas::lines_counted))]
pub fn line_count(bytes: &[u8]) -> u64
    ensures counted { result ≡ script_line_count bytes.now }
    ensures lines { result ≡ length (script_lines bytes.now) }
{
    counted(bytes)
}
