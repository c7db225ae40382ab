//! Tokens of a head that aren't decimals.
ghost use Rattle.std.specs.Prelude.{◌≡◌};
ghost use Rattle.brep_tokens.specs.Forms.{flag_text};
ghost use Rattle.tshape_data.specs.Flags.{flag_code, spell_flags};
ghost use Rattle.tshape_data.specs.Parts.{continuity_text};
ghost use Rattle.tshape_data.specs.SpellLeft.{word_text};

use crate::head::Flags;
use brep_tokens::TokenText;
use entry_readers::number_text;
use orientation::{Kind, kind_name};

/// A token of a head that isn't a decimal. A continuity is given by the place of its word. `End` is the `0` after
/// representations, and `Meshed` the `2` before a triangulation.
#[derive(Clone, Copy)]
pub enum Word {
    Name(Kind),
    Number(u64),
    Continuity(u8),
    Flag(bool),
    End,
    Meshed,
    Flags(Flags),
}

/// The byte that spells a flag.
fn digit(flag: bool) -> u8
    ensures { result ≡ flag_code flag }
{
    if flag { b'1' } else { b'0' }
}

/// The seven flags as one token.
fn flags_text(f: Flags) -> TokenText
    ensures { result ≡ spell_flags f }
{
    let free = digit(f.free);
    let modified = digit(f.modified);
    let checked = digit(f.checked);
    let orientable = digit(f.orientable);
    let closed = digit(f.closed);
    let infinite = digit(f.infinite);
    let convex = digit(f.convex);
    TokenText::of(&[
        free, modified, checked, orientable, closed, infinite, convex,
    ])
}

/// The continuity word at a place; behind the last there is none.
fn continuity_word(place: u8) -> &'static [u8]
    ensures { result.now ≡ continuity_text place }
{
    match place {
        0 => b"C0",
        1 => b"C1",
        2 => b"C2",
        3 => b"C3",
        4 => b"CN",
        5 => b"G1",
        6 => b"G2",
        _ => b"",
    }
}

/// The text of a word.
pub fn text_of(word: Word) -> TokenText
    ensures { result ≡ word_text word }
{
    match word {
        Word::Name(kind) => TokenText::of(kind_name(kind)),
        Word::Number(n) => number_text(n),
        Word::Continuity(place) => TokenText::of(continuity_word(place)),
        Word::Flag(flag) => TokenText::of(&[digit(flag)]),
        Word::End => TokenText::of(b"0"),
        Word::Meshed => TokenText::of(b"2"),
        Word::Flags(flags) => flags_text(flags),
    }
}
