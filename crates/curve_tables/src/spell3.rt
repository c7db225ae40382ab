//! The tokens of a 3D curve, one after another.
ghost use Rattle.std.specs.Prelude.{◌≡◌, ◌<◌, length};
ghost use Rattle.curve_tables.specs.Shapes.{CanSpell3};
ghost use Rattle.curve_tables.specs.SpellLeft.{CanGive3, part_left, tokens_left3};
ghost use Rattle.curve_tables.specs.Spelling.{spelling3};

use crate::curve3::Curve3;
use crate::part_spell::{PartSpell, bezier, coded, spline};
use brep_tokens::TokenText;

/// Gives the texts of a curve's tokens.
#[derive(Clone, Copy)]
pub struct Spell3<'a> {
    part: PartSpell<'a>,
    basis: Option<&'a Curve3>,
}

/// The iterator at the first token of a curve.
fn start<'a>(curve: &'a Curve3) -> Spell3<'a>
    requires { CanSpell3 curve.now }
    ensures left { tokens_left3 result ≡ spelling3 curve.now }
    ensures can { CanGive3 result }
    ensures first { 0 < length (part_left result.part) }
{
    let part = match curve {
        Curve3::Plain { code, texts } => coded(*code as u64, texts),
        Curve3::Bezier {
            rational,
            degree,
            poles,
        } => bezier(*rational, *degree, poles),
        Curve3::BSpline {
            rational,
            flag,
            degree,
            pole_count,
            poles,
            knots,
            multiplicities,
        } => {
            let flags = (*rational, *flag);
            spline(flags, *degree, *pole_count, poles, knots, multiplicities)
        }
        Curve3::Trimmed { texts, basis } => {
            return Spell3 {
                part: coded(8, texts),
                basis: Some(basis.get()),
            };
        }
        Curve3::Offset { texts, basis } => {
            return Spell3 {
                part: coded(9, texts),
                basis: Some(basis.get()),
            };
        }
    };
    Spell3 { part, basis: None }
}

impl Curve3 {
    ghost use Rattle.std.specs.Prelude.{◌≡◌};
    ghost use Rattle.curve_tables.specs.Shapes.{CanSpell3};
    ghost use Rattle.curve_tables.specs.SpellLeft.{CanGive3, tokens_left3};
    ghost use Rattle.curve_tables.specs.Spelling.{spelling3};

    /// The texts of its tokens. It takes no memory.
    pub fn spell(&self) -> Spell3<'_>
        requires { CanSpell3 self.now }
        ensures left { tokens_left3 result ≡ spelling3 self.now }
        ensures can { CanGive3 result }
    {
        start(self)
    }
}

impl<'a> Iterator for Spell3<'a> {
    ghost use Rattle.std.specs.Iterator.{YieldsFirst, item_count};
    ghost use Rattle.curve_tables.specs.SpellLeft.{CanGive3, tokens_left3};

    type Item = TokenText;

    ghost next_gives = { YieldsFirst tokens_left3 };

    ghost remaining = { item_count tokens_left3 };

    ghost can_next = { CanGive3 };

    fn next(&mut self) -> Option<TokenText> {
        if let Some(t) = self.part.next() {
            return Some(t);
        }
        match self.basis {
            None => None,
            Some(basis) => {
                *self = start(basis);
                self.part.next()
            }
        }
    }
}
