//! The tokens of an entry, one after another.
ghost use Rattle.std.specs.Prelude.{◌≡◌, ℕ, Bool, false};
ghost use Rattle.std.specs.Fmt.{signed_decimal};
ghost use Rattle.location_table.specs.Spell.{factors_left, spell_factors, tokens_left, CanGive, CanSpellLocation};
ghost use Rattle.location_table.specs.Locations.{spell_location};

use crate::entry::{Factor, Factors, LocationEntry};
use brep_tokens::TokenText;
use entry_readers::{DecimalsSpell, number_text};
use itoa::Buffer;

/// The text of a power.
fn power_text(p: i64) -> TokenText
    ensures { result ≡ signed_decimal p }
{
    let mut buffer = Buffer::new();
    TokenText::of(buffer.format(p).as_bytes())
}

/// Gives the texts of factors, and `0`.
#[derive(Clone, Copy)]
pub struct FactorsSpell<'a> {
    factors: &'a [Factor],
    at: usize,
    half: bool,
    ended: bool,
}

impl<'a> FactorsSpell<'a> {
    fn new(factors: &'a Factors) -> FactorsSpell<'a>
        ensures { factors_left result ≡ spell_factors factors.now }
    {
        FactorsSpell {
            factors: factors.as_slice(),
            at: 0,
            half: false,
            ended: false,
        }
    }
}

impl<'a> Iterator for FactorsSpell<'a> {
    ghost use Rattle.std.specs.Iterator.{YieldsFirst, item_count};
    ghost use Rattle.location_table.specs.Spell.{factors_left};

    type Item = TokenText;

    ghost next_gives = { YieldsFirst factors_left };

    ghost remaining = { item_count factors_left };

    fn next(&mut self) -> Option<TokenText> {
        if self.ended {
            return None;
        }
        match self.factors.get(self.at) {
            None => {
                self.ended = true;
                if self.half {
                    None
                } else {
                    Some(number_text(0))
                }
            }
            Some(factor) => {
                if self.half {
                    self.half = false;
                    self.at += 1;
                    Some(power_text(factor.power))
                } else {
                    self.half = true;
                    Some(number_text(u64::from(factor.place)))
                }
            }
        }
    }
}

/// What comes after the code of an entry.
#[derive(Clone, Copy)]
pub enum SpellRest<'a> {
    Texts(DecimalsSpell<'a>),
    Factors(FactorsSpell<'a>),
}

/// Gives the texts of an entry's tokens.
#[derive(Clone, Copy)]
pub struct LocationSpell<'a> {
    code: u64,
    begun: bool,
    rest: SpellRest<'a>,
}

impl LocationEntry {
    ghost use Rattle.std.specs.Prelude.{◌≡◌};
    ghost use Rattle.location_table.specs.Locations.{spell_location};
    ghost use Rattle.location_table.specs.Spell.{tokens_left, CanGive, CanSpellLocation};

    /// The texts of its tokens. Each decimal has at most 128 bytes.
    pub fn spell(&self) -> LocationSpell<'_>
        requires { CanSpellLocation self.now }
        ensures left { tokens_left result ≡ spell_location self.now }
        ensures can { CanGive result }
    {
        match self {
            LocationEntry::Datum(texts) => LocationSpell {
                code: 1,
                begun: false,
                rest: SpellRest::Texts(DecimalsSpell::new(texts)),
            },
            LocationEntry::Product(factors) => LocationSpell {
                code: 2,
                begun: false,
                rest: SpellRest::Factors(FactorsSpell::new(factors)),
            },
        }
    }
}

impl<'a> Iterator for LocationSpell<'a> {
    ghost use Rattle.std.specs.Iterator.{YieldsFirst, item_count};
    ghost use Rattle.location_table.specs.Spell.{tokens_left, CanGive};

    type Item = TokenText;

    ghost next_gives = { YieldsFirst tokens_left };

    ghost remaining = { item_count tokens_left };

    ghost can_next = { CanGive };

    fn next(&mut self) -> Option<TokenText> {
        if !self.begun {
            self.begun = true;
            return Some(number_text(self.code));
        }
        match self.rest {
            SpellRest::Texts(mut texts) => {
                let t = texts.next();
                self.rest = SpellRest::Texts(texts);
                t
            }
            SpellRest::Factors(mut factors) => {
                let t = factors.next();
                self.rest = SpellRest::Factors(factors);
                t
            }
        }
    }
}
