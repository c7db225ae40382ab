//! Short pieces of a text.
ghost use Rattle.std.specs.Prelude.{◌∷◌, ◌++◌, []};

use crate::takes::TakesBytes;

/// Hands in a byte.
pub fn push_byte<B: TakesBytes>(text: &mut B, byte: u8)
    ensures { B.gives text.old (byte ∷ []) text.new }
{
    text.push(&[byte]);
}

/// Hands in bytes, and the end of a line.
pub fn push_line<B: TakesBytes>(text: &mut B, bytes: &[u8])
    ensures { B.gives text.old (bytes.now ++ 10 ∷ []) text.new }
{
    text.push(bytes);
    push_byte(text, b'\n');
}
