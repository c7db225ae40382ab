//! Headings and uses, handed to what takes bytes.
ghost use Rattle.brep_file.specs.Spelling.{spell_use};
ghost use Rattle.brep_file.specs.declared.uses.FileUse.{FileUse};
ghost use Rattle.brep_tokens.specs.Written.{line_text};
ghost use Rattle.std.specs.Fmt.{decimal};
ghost use Rattle.std.specs.List.{join_with_byte};
ghost use Rattle.std.specs.Prelude.{◌∷◌, ◌++◌, []};
ghost use Rattle.written_layout.specs.Layout.{heading};

use byte_sink::{TakesBytes, push_byte};
use itoa::Buffer;
use orientation::{Turn, sign};

/// A number in decimal digits.
pub(crate) fn push_number<B: TakesBytes>(text: &mut B, n: usize)
    ensures { B.gives text.old (decimal n) text.new }
{
    let mut buffer = Buffer::new();
    text.push(buffer.format(n).as_bytes());
}

/// A section's word and the count of its entries on a line.
pub fn push_heading<B: TakesBytes>(text: &mut B, word: &[u8], count: usize)
    ensures { B.gives text.old (line_text (heading word.now count)) text.new }
{
    text.push(word);
    push_byte(text, b' ');
    push_number(text, count);
    push_byte(text, b'\n');
}

/// A use of the record with a number at a location with a number, and a byte after it.
pub fn push_use<B: TakesBytes>(text: &mut B, turn: Turn, number: usize, location: usize, end: u8)
    ensures { let used : FileUse = record { turn = turn; number = number; location = location } in
        B.gives text.old (join_with_byte 32 (spell_use used) ++ end ∷ []) text.new }
{
    push_byte(text, sign(turn));
    push_number(text, number);
    push_byte(text, b' ');
    push_number(text, location);
    push_byte(text, end);
}
