//! The line of a shape.
ghost use Rattle.std.specs.Prelude.{◌∷◌, ◌++◌, []};
ghost use Rattle.std.specs.Fmt.{decimal};
ghost use Rattle.shape_listing.specs.Lines.{factor_text, line_of};

use byte_sink::{TakesBytes, push_byte};
use itoa::Buffer;
use location_words::Pair;

/// A number in decimal digits.
fn push_number<B: TakesBytes>(text: &mut B, n: u32)
    ensures { B.gives text.old (decimal n) text.new }
{
    let mut buffer = Buffer::new();
    text.push(buffer.format(n).as_bytes());
}

/// A power of a datum, with a space before it.
fn push_factor<B: TakesBytes>(text: &mut B, pair: Pair)
    ensures { B.gives text.old (factor_text pair) text.new }
{
    push_byte(text, b' ');
    push_number(text, pair.datum);
    push_byte(text, b'^');
    let mut buffer = Buffer::new();
    text.push(buffer.format(pair.power).as_bytes());
}

/// The number of a shape's record, its word, and the end of the line.
pub(crate) fn push_shape<B: TakesBytes>(text: &mut B, number: u32, word: &[Pair])
    ensures { B.gives text.old (line_of number word.now) text.new }
{
    push_number(text, number);
    for pair in word {
        push_factor(text, *pair);
    }
    push_byte(text, b'\n');
}
