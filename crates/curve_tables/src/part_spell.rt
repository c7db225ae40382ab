//! The tokens of a curve up to its basis, one after another, in either dimension.
ghost use Rattle.std.specs.Prelude.{◌≡◌, ◌<◌, ◌∷◌, length};
ghost use Rattle.std.specs.Fmt.{decimal};
ghost use Rattle.brep_tokens.specs.Forms.{flag_text};
ghost use Rattle.entry_readers.specs.Spelled.{AreShort};
ghost use Rattle.curve_tables.specs.SpellLeft.{CanGivePart, part_left};
ghost use Rattle.curve_tables.specs.Spelling.{spell_spline};

use brep_tokens::{Decimals, Numbers, TokenText};
use entry_readers::{DecimalsSpell, HeaderSpell, KnotsSpell};

/// Gives the texts of the numbers and flags, of the decimals, and of the knots with their multiplicities.
#[derive(Clone, Copy)]
pub struct PartSpell<'a> {
    header: HeaderSpell,
    texts: DecimalsSpell<'a>,
    knots: Option<KnotsSpell<'a>>,
}

/// The number that spells a flag.
fn flag_number(flag: bool) -> u64
    ensures { decimal result ≡ flag_text flag }
{
    if flag { 1 } else { 0 }
}

/// A code and decimals.
pub fn coded<'a>(code: u64, texts: &'a Decimals) -> PartSpell<'a>
    requires { AreShort texts.now }
    ensures left { part_left result ≡ decimal code ∷ texts.now }
    ensures can { CanGivePart result }
{
    PartSpell {
        header: HeaderSpell::new([code, 0, 0, 0, 0, 0, 0, 0, 0, 0, 0, 0], 1),
        texts: DecimalsSpell::new(texts),
        knots: None,
    }
}

/// A Bezier curve.
pub fn bezier<'a>(rational: bool, degree: u64, poles: &'a Decimals) -> PartSpell<'a>
    requires { AreShort poles.now }
    ensures left { part_left result ≡ decimal 6 ∷ flag_text rational ∷ decimal degree ∷ poles.now }
    ensures can { CanGivePart result }
{
    let rational = flag_number(rational);
    PartSpell {
        header: HeaderSpell::new([6, rational, degree, 0, 0, 0, 0, 0, 0, 0, 0, 0], 3),
        texts: DecimalsSpell::new(poles),
        knots: None,
    }
}

/// A B-spline curve: whether it is rational, its second flag, its degree, the number of its poles,
/// and these and its knots.
pub fn spline<'a>(
    flags: (bool, bool),
    degree: u64,
    pole_count: u64,
    poles: &'a Decimals,
    knots: &'a Decimals,
    multiplicities: &'a Numbers,
) -> PartSpell<'a>
    requires poles { AreShort poles.now }
    requires knots { AreShort knots.now }
    requires even { length knots.now ≡ length multiplicities.now }
    ensures left { part_left result
        ≡ spell_spline flags.0 flags.1 degree pole_count poles.now knots.now multiplicities.now }
    ensures can { CanGivePart result }
{
    let (rational, flag) = flags;
    let (rational, flag) = (flag_number(rational), flag_number(flag));
    let count = knots.len() as u64;
    PartSpell {
        header: HeaderSpell::new(
            [
                7, rational, flag, degree, pole_count, count, 0, 0, 0, 0, 0, 0,
            ],
            6,
        ),
        texts: DecimalsSpell::new(poles),
        knots: Some(KnotsSpell::new(knots, multiplicities)),
    }
}

impl<'a> Iterator for PartSpell<'a> {
    ghost use Rattle.std.specs.Iterator.{YieldsFirst, item_count};
    ghost use Rattle.curve_tables.specs.SpellLeft.{CanGivePart, part_left};

    type Item = TokenText;

    ghost next_gives = { YieldsFirst part_left };

    ghost remaining = { item_count part_left };

    ghost can_next = { CanGivePart };

    fn next(&mut self) -> Option<TokenText> {
        if let Some(t) = self.header.next() {
            return Some(t);
        }
        if let Some(t) = self.texts.next() {
            return Some(t);
        }
        match self.knots {
            None => None,
            Some(mut knots) => {
                let t = knots.next();
                self.knots = Some(knots);
                t
            }
        }
    }
}
