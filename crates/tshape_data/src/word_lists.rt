//! Lists of at most six words.
ghost use Rattle.std.specs.Prelude.{◌≡◌, ◌∷◌, [], map};
ghost use Rattle.tshape_data.specs.SpellLeft.{word_text, words_left, words_of};

use crate::head_words::{Word, text_of};
use brep_tokens::TokenText;

/// What stands behind the last word.
const NO_WORD: Word = Word::End;

/// The first `len` of the words.
#[derive(Clone, Copy)]
pub struct Words {
    words: [Word; 6],
    len: usize,
}

impl Words {
    /// No word.
    pub fn none() -> Words
        ensures { words_of result ≡ [] }
    {
        Words {
            words: [NO_WORD, NO_WORD, NO_WORD, NO_WORD, NO_WORD, NO_WORD],
            len: 0,
        }
    }

    /// One word.
    pub fn one(a: Word) -> Words
        ensures { words_of result ≡ map word_text (a ∷ []) }
    {
        Words {
            words: [a, NO_WORD, NO_WORD, NO_WORD, NO_WORD, NO_WORD],
            len: 1,
        }
    }

    /// Two words.
    pub fn two(a: Word, b: Word) -> Words
        ensures { words_of result ≡ map word_text (a ∷ b ∷ []) }
    {
        Words {
            words: [a, b, NO_WORD, NO_WORD, NO_WORD, NO_WORD],
            len: 2,
        }
    }

    /// Three words.
    pub fn three(a: Word, b: Word, c: Word) -> Words
        ensures { words_of result ≡ map word_text (a ∷ b ∷ c ∷ []) }
    {
        Words {
            words: [a, b, c, NO_WORD, NO_WORD, NO_WORD],
            len: 3,
        }
    }

    /// Four words.
    pub fn four(a: Word, b: Word, c: Word, d: Word) -> Words
        ensures { words_of result ≡ map word_text (a ∷ b ∷ c ∷ d ∷ []) }
    {
        Words {
            words: [a, b, c, d, NO_WORD, NO_WORD],
            len: 4,
        }
    }

    /// Five words.
    pub fn five(a: Word, b: Word, c: Word, d: Word, e: Word) -> Words
        ensures { words_of result ≡ map word_text (a ∷ b ∷ c ∷ d ∷ e ∷ []) }
    {
        Words {
            words: [a, b, c, d, e, NO_WORD],
            len: 5,
        }
    }

    /// Six words.
    pub fn six(a: Word, b: Word, c: Word, d: Word, e: Word, f: Word) -> Words
        ensures { words_of result ≡ map word_text (a ∷ b ∷ c ∷ d ∷ e ∷ f ∷ []) }
    {
        Words {
            words: [a, b, c, d, e, f],
            len: 6,
        }
    }
}

/// The texts of words.
#[derive(Clone, Copy)]
pub struct WordsSpell {
    words: Words,
    at: usize,
}

impl WordsSpell {
    /// All of them.
    pub fn new(words: Words) -> WordsSpell
        ensures { words_left result ≡ words_of words }
    {
        WordsSpell { words, at: 0 }
    }
}

impl Iterator for WordsSpell {
    ghost use Rattle.std.specs.Iterator.{YieldsFirst, item_count};
    ghost use Rattle.tshape_data.specs.SpellLeft.{words_left};

    type Item = TokenText;

    ghost next_gives = { YieldsFirst words_left };

    ghost remaining = { item_count words_left };

    fn next(&mut self) -> Option<TokenText> {
        if self.at < self.words.len && self.at < 6 {
            let word = self.words.words[self.at];
            self.at += 1;
            Some(text_of(word))
        } else {
            None
        }
    }
}
