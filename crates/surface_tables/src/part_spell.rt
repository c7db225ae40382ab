//! The tokens of a surface up to its basis, one after another.
ghost use Rattle.std.specs.Prelude.{◌≡◌, ◌∷◌, ◌++◌};
ghost use Rattle.std.specs.Fmt.{decimal};
ghost use Rattle.brep_tokens.specs.Forms.{flag_text};
ghost use Rattle.entry_readers.specs.Spelled.{AreShort, CanPair, pairs_left};
ghost use Rattle.curve_tables.specs.Shapes.{CanSpell3};
ghost use Rattle.curve_tables.specs.Spelling.{spelling3};
ghost use Rattle.surface_tables.specs.SpellLeft.{CanGivePart, part_left, spell_net};
ghost use Rattle.surface_tables.specs.Spelling.{spell_bezier};

use crate::parts::Net;
use brep_tokens::{Decimals, TokenText};
use curve_tables::{Curve3, Spell3};
use entry_readers::{DecimalsSpell, HeaderSpell, KnotsSpell};

/// Gives the texts of the u knots and of the v knots, each with its multiplicity.
#[derive(Clone, Copy)]
pub struct NetKnots<'a> {
    u: KnotsSpell<'a>,
    v: KnotsSpell<'a>,
}

/// What stands after the decimals.
#[derive(Clone, Copy)]
pub enum After<'a> {
    Nothing,
    Knots(NetKnots<'a>),
    Curve(Spell3<'a>),
}

/// Gives the texts of the numbers and flags, of the decimals, and of the knots or the curve.
#[derive(Clone, Copy)]
pub struct PartSpell<'a> {
    header: HeaderSpell,
    texts: DecimalsSpell<'a>,
    after: After<'a>,
}

/// The number that spells a flag.
fn flag_number(flag: bool) -> u64
    ensures { decimal result ≡ flag_text flag }
{
    if flag { 1 } else { 0 }
}

/// A code and decimals.
pub fn coded<'a>(code: u64, texts: &'a Decimals) -> PartSpell<'a>
    requires { AreShort texts.now }
    ensures left { part_left result ≡ decimal code ∷ texts.now }
    ensures can { CanGivePart result }
{
    PartSpell {
        header: HeaderSpell::new([code, 0, 0, 0, 0, 0, 0, 0, 0, 0, 0, 0], 1),
        texts: DecimalsSpell::new(texts),
        after: After::Nothing,
    }
}

/// A code, decimals and the curve that is swept.
pub fn swept<'a>(code: u64, texts: &'a Decimals, curve: &'a Curve3) -> PartSpell<'a>
    requires texts { AreShort texts.now }
    requires curve { CanSpell3 curve.now }
    ensures left { part_left result ≡ decimal code ∷ (texts.now ++ spelling3 curve.now) }
    ensures can { CanGivePart result }
{
    PartSpell {
        header: HeaderSpell::new([code, 0, 0, 0, 0, 0, 0, 0, 0, 0, 0, 0], 1),
        texts: DecimalsSpell::new(texts),
        after: After::Curve(curve.spell()),
    }
}

/// A Bezier surface: its rational flags, its degrees, and its poles.
pub fn bezier<'a>(
    flags: (bool, bool),
    udegree: u64,
    vdegree: u64,
    poles: &'a Decimals,
) -> PartSpell<'a>
    requires { AreShort poles.now }
    ensures left { part_left result ≡ spell_bezier flags.0 flags.1 udegree vdegree poles.now }
    ensures can { CanGivePart result }
{
    let (urational, vrational) = (flag_number(flags.0), flag_number(flags.1));
    PartSpell {
        header: HeaderSpell::new(
            [
                8, urational, vrational, udegree, vdegree, 0, 0, 0, 0, 0, 0, 0,
            ],
            5,
        ),
        texts: DecimalsSpell::new(poles),
        after: After::Nothing,
    }
}

/// A B-spline surface: its numbers, the numbers of its knots, its poles, and its knots.
pub fn spline<'a>(
    net: Net,
    counts: (u64, u64),
    poles: &'a Decimals,
    u: KnotsSpell<'a>,
    v: KnotsSpell<'a>,
) -> PartSpell<'a>
    requires poles { AreShort poles.now }
    requires u { CanPair u }
    requires v { CanPair v }
    ensures left { part_left result ≡ spell_net net counts.0 counts.1
        ++ (poles.now ++ (pairs_left u.entry ++ pairs_left v.entry)) }
    ensures can { CanGivePart result }
{
    let header = [
        9,
        flag_number(net.flags.urational),
        flag_number(net.flags.vrational),
        flag_number(net.flags.uflag),
        flag_number(net.flags.vflag),
        net.udegree,
        net.vdegree,
        net.upoles,
        net.vpoles,
        counts.0,
        counts.1,
        0,
    ];
    PartSpell {
        header: HeaderSpell::new(header, 11),
        texts: DecimalsSpell::new(poles),
        after: After::Knots(NetKnots { u, v }),
    }
}

impl<'a> Iterator for NetKnots<'a> {
    ghost use Rattle.std.specs.Iterator.{YieldsFirst, item_count};
    ghost use Rattle.surface_tables.specs.SpellLeft.{CanGiveKnots, knots_left};

    type Item = TokenText;

    ghost next_gives = { YieldsFirst knots_left };

    ghost remaining = { item_count knots_left };

    ghost can_next = { CanGiveKnots };

    fn next(&mut self) -> Option<TokenText> {
        let mut u = self.u;
        if let Some(t) = u.next() {
            self.u = u;
            return Some(t);
        }
        self.v.next()
    }
}

impl<'a> Iterator for PartSpell<'a> {
    ghost use Rattle.std.specs.Iterator.{YieldsFirst, item_count};
    ghost use Rattle.surface_tables.specs.SpellLeft.{CanGivePart, part_left};

    type Item = TokenText;

    ghost next_gives = { YieldsFirst part_left };

    ghost remaining = { item_count part_left };

    ghost can_next = { CanGivePart };

    fn next(&mut self) -> Option<TokenText> {
        if let Some(t) = self.header.next() {
            return Some(t);
        }
        if let Some(t) = self.texts.next() {
            return Some(t);
        }
        match self.after {
            After::Nothing => None,
            After::Knots(mut knots) => {
                let t = knots.next();
                self.after = After::Knots(knots);
                t
            }
            After::Curve(mut curve) => {
                let t = curve.next();
                self.after = After::Curve(curve);
                t
            }
        }
    }
}
