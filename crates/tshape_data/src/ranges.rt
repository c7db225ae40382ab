//! Ranges of decimals.
ghost use Rattle.std.specs.Prelude.{◌≡◌, drop, take};
ghost use Rattle.tshape_data.specs.SpellLeft.{range_left};

use brep_tokens::{Decimals, TokenText};

/// The texts of decimals from one place up to another.
#[derive(Clone, Copy)]
pub struct RangeSpell<'a> {
    texts: &'a Decimals,
    at: usize,
    end: usize,
}

impl<'a> RangeSpell<'a> {
    /// Those from `at` up to `end`.
    pub fn new(texts: &'a Decimals, at: usize, end: usize) -> RangeSpell<'a>
        ensures { range_left result ≡ drop at (take end texts.now) }
    {
        RangeSpell { texts, at, end }
    }
}

impl<'a> Iterator for RangeSpell<'a> {
    ghost use Rattle.std.specs.Iterator.{YieldsFirst, item_count};
    ghost use Rattle.entry_readers.specs.Spelled.{AreShort};
    ghost use Rattle.tshape_data.specs.SpellLeft.{range_left};

    type Item = TokenText;

    ghost next_gives = { YieldsFirst range_left };

    ghost remaining = { item_count range_left };

    ghost can_next = { λ s. AreShort (range_left s) };

    fn next(&mut self) -> Option<TokenText> {
        if self.at >= self.end {
            return None;
        }
        match self.texts.get(self.at) {
            Some(x) => {
                self.at += 1;
                Some(TokenText::of(x))
            }
            None => None,
        }
    }
}
