//! Pieces of a head's spelling: words, decimals, and words again.
ghost use Rattle.std.specs.Prelude.{◌≡◌, ◌++◌};
ghost use Rattle.entry_readers.specs.Spelled.{AreShort};
ghost use Rattle.tshape_data.specs.SpellLeft.{CanGiveChunk, chunk_left, range_left, words_of};

use crate::ranges::RangeSpell;
use crate::word_lists::{Words, WordsSpell};
use brep_tokens::TokenText;

/// Gives the texts of words, of decimals, and of words.
#[derive(Clone, Copy)]
pub struct ChunkSpell<'a> {
    before: WordsSpell,
    texts: Option<RangeSpell<'a>>,
    after: WordsSpell,
}

/// Words alone.
pub fn words_alone<'a>(words: Words) -> ChunkSpell<'a>
    ensures left { chunk_left result ≡ words_of words }
    ensures can { CanGiveChunk result }
{
    ChunkSpell {
        before: WordsSpell::new(words),
        texts: None,
        after: WordsSpell::new(Words::none()),
    }
}

/// Words, decimals, and words.
pub fn words_around<'a>(before: Words, texts: RangeSpell<'a>, after: Words) -> ChunkSpell<'a>
    requires { AreShort (range_left texts) }
    ensures left { chunk_left result ≡ words_of before ++ (range_left texts.entry ++ words_of after) }
    ensures can { CanGiveChunk result }
{
    ChunkSpell {
        before: WordsSpell::new(before),
        texts: Some(texts),
        after: WordsSpell::new(after),
    }
}

impl<'a> Iterator for ChunkSpell<'a> {
    ghost use Rattle.std.specs.Iterator.{YieldsFirst, item_count};
    ghost use Rattle.tshape_data.specs.SpellLeft.{CanGiveChunk, chunk_left};

    type Item = TokenText;

    ghost next_gives = { YieldsFirst chunk_left };

    ghost remaining = { item_count chunk_left };

    ghost can_next = { CanGiveChunk };

    fn next(&mut self) -> Option<TokenText> {
        if let Some(t) = self.before.next() {
            return Some(t);
        }
        if let Some(mut texts) = self.texts {
            let t = texts.next();
            self.texts = Some(texts);
            if t.is_some() {
                return t;
            }
        }
        self.after.next()
    }
}
