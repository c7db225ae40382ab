//! The words of a line, found one after another.
ghost use Rattle.std.specs.Prelude.{◌≡◌, ◌<◌, ◌≤◌, length, true, false};
ghost use Rattle.script_text.specs.Words.{SplitsFirst, is_blank, is_nothing, starts_blank, word_size, words_of};

fn blank(b: u8) -> bool
    ensures { result ≡ is_blank b }
{
    b == b' ' || b == b'\t'
}

/// The line without the spaces and tabs at its front.
fn past_blanks(line: &[u8]) -> &[u8]
    ensures same { words_of result.now ≡ words_of line.now }
    ensures short { length result.now ≤ length line.now }
    ensures dark { 0 < length result.now → starts_blank result.now ≡ false }
{
    let mut at = 0usize;
    'blanks: while at < line.len() && blank(line[at]) {
        at += 1;
    }
    &line[at..]
}

/// How many bytes stand before the first space or tab.
fn size_of_word(line: &[u8]) -> usize
    ensures size { result ≡ word_size line.now }
    ensures fits { result ≤ length line.now }
{
    let mut size = 0usize;
    'word: while size < line.len() && !blank(line[size]) {
        size += 1;
    }
    size
}

/// The first word of a line, and what follows it.
pub(crate) fn first_word(line: &[u8]) -> Option<(&[u8], &[u8])>
    ensures { SplitsFirst line.now result }
{
    let dark = past_blanks(line);
    if dark.is_empty() {
        return None;
    }
    let size = size_of_word(dark);
    Some(dark.split_at(size))
}

/// Is the line empty but for spaces and tabs, or a comment?
pub(crate) fn says_nothing(line: &[u8]) -> bool
    ensures { result ≡ is_nothing (words_of line.now) }
{
    match first_word(line) {
        None => true,
        Some((word, _rest)) => match word {
            [] => false,
            [b, ..] => *b == b'#',
        },
    }
}
