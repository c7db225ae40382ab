//! The tokens of a 2D curve, one after another.
ghost use Rattle.std.specs.Prelude.{◌≡◌, ◌<◌, length};
ghost use Rattle.curve_tables.specs.Shapes.{CanSpell2};
ghost use Rattle.curve_tables.specs.SpellLeft.{CanGive2, part_left, tokens_left2};
ghost use Rattle.curve_tables.specs.Spelling.{spelling2};

use crate::curve2::Curve2;
use crate::part_spell::{PartSpell, bezier, coded, spline};
use brep_tokens::TokenText;

/// Gives the texts of a curve's tokens.
#[derive(Clone, Copy)]
pub struct Spell2<'a> {
    part: PartSpell<'a>,
    basis: Option<&'a Curve2>,
}

/// The iterator at the first token of a curve.
fn start<'a>(curve: &'a Curve2) -> Spell2<'a>
    requires { CanSpell2 curve.now }
    ensures left { tokens_left2 result ≡ spelling2 curve.now }
    ensures can { CanGive2 result }
    ensures first { 0 < length (part_left result.part) }
{
    let part = match curve {
        Curve2::Plain { code, texts } => coded(*code as u64, texts),
        Curve2::Bezier {
            rational,
            degree,
            poles,
        } => bezier(*rational, *degree, poles),
        Curve2::BSpline {
            rational,
            flag,
            degree,
            pole_count,
            poles,
            knots,
            multiplicities,
        } => {
            let flags = (*rational, *flag);
            spline(flags, *degree, *pole_count, poles, knots, multiplicities)
        }
        Curve2::Trimmed { texts, basis } => {
            return Spell2 {
                part: coded(8, texts),
                basis: Some(basis.get()),
            };
        }
        Curve2::Offset { texts, basis } => {
            return Spell2 {
                part: coded(9, texts),
                basis: Some(basis.get()),
            };
        }
    };
    Spell2 { part, basis: None }
}

impl Curve2 {
    ghost use Rattle.std.specs.Prelude.{◌≡◌};
    ghost use Rattle.curve_tables.specs.Shapes.{CanSpell2};
    ghost use Rattle.curve_tables.specs.SpellLeft.{CanGive2, tokens_left2};
    ghost use Rattle.curve_tables.specs.Spelling.{spelling2};

    /// The texts of its tokens. It takes no memory.
    pub fn spell(&self) -> Spell2<'_>
        requires { CanSpell2 self.now }
        ensures left { tokens_left2 result ≡ spelling2 self.now }
        ensures can { CanGive2 result }
    {
        start(self)
    }
}

impl<'a> Iterator for Spell2<'a> {
    ghost use Rattle.std.specs.Iterator.{YieldsFirst, item_count};
    ghost use Rattle.curve_tables.specs.SpellLeft.{CanGive2, tokens_left2};

    type Item = TokenText;

    ghost next_gives = { YieldsFirst tokens_left2 };

    ghost remaining = { item_count tokens_left2 };

    ghost can_next = { CanGive2 };

    fn next(&mut self) -> Option<TokenText> {
        if let Some(t) = self.part.next() {
            return Some(t);
        }
        match self.basis {
            None => None,
            Some(basis) => {
                *self = start(basis);
                self.part.next()
            }
        }
    }
}
