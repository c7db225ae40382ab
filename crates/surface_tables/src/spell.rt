//! The tokens of a surface, one after another.
ghost use Rattle.std.specs.Prelude.{◌≡◌, ◌<◌, length};
ghost use Rattle.entry_readers.specs.Spelled.{AreShort};
ghost use Rattle.curve_tables.specs.Shapes.{AreTexts};
ghost use Rattle.surface_tables.specs.HeaderLeft.{net_of};
ghost use Rattle.surface_tables.specs.Shapes.{CanSpellSurface};
ghost use Rattle.surface_tables.specs.SpellLeft.{CanGive, CanGivePart, part_left, spell_spline, tokens_left};
ghost use Rattle.surface_tables.specs.Spelling.{spell_surface};

use crate::part_spell::{PartSpell, bezier, coded, spline, swept};
use crate::parts::Net;
use crate::surface::{Surface, SurfaceFlags};
use brep_tokens::{Decimals, Numbers, TokenText};
use entry_readers::KnotsSpell;

/// Gives the texts of a surface's tokens.
#[derive(Clone, Copy)]
pub struct SurfaceSpell<'a> {
    part: PartSpell<'a>,
    basis: Option<&'a Surface>,
}

/// The numbers of a B-spline surface: its degrees and the numbers of its poles, each in u and in v.
fn spline_net(flags: SurfaceFlags, degrees: (u64, u64), poles: (u64, u64)) -> Net
    ensures { result ≡ net_of flags degrees.0 degrees.1 poles.0 poles.1 }
{
    Net {
        flags,
        udegree: degrees.0,
        vdegree: degrees.1,
        upoles: poles.0,
        vpoles: poles.1,
    }
}

/// The part of a B-spline surface: its numbers, its poles, and its knots in u and in v with their multiplicities.
fn spline_part<'a>(
    net: Net,
    poles: &'a Decimals,
    uknots: &'a Decimals,
    umult: &'a Numbers,
    vknots: &'a Decimals,
    vmult: &'a Numbers,
) -> PartSpell<'a>
    requires poles { AreShort poles.now }
    requires u { AreTexts (length umult.now) uknots.now }
    requires v { AreTexts (length vmult.now) vknots.now }
    ensures left { part_left result ≡ spell_spline net poles.now uknots.now umult.now vknots.now vmult.now }
    ensures can { CanGivePart result }
{
    let counts = (uknots.len() as u64, vknots.len() as u64);
    let u = KnotsSpell::new(uknots, umult);
    let v = KnotsSpell::new(vknots, vmult);
    spline(net, counts, poles, u, v)
}

/// The part in front of the basis, and the basis.
fn start<'a>(surface: &'a Surface) -> SurfaceSpell<'a>
    requires { CanSpellSurface surface.now }
    ensures left { tokens_left result ≡ spell_surface surface.now }
    ensures can { CanGive result }
    ensures first { 0 < length (part_left result.part) }
{
    let part = match surface {
        Surface::Plain { code, texts } => coded(*code as u64, texts),
        Surface::Swept { code, texts, curve } => swept(*code as u64, texts, curve),
        Surface::Bezier {
            urational,
            vrational,
            udegree,
            vdegree,
            poles,
        } => bezier((*urational, *vrational), *udegree, *vdegree, poles),
        Surface::BSpline {
            flags,
            udegree,
            vdegree,
            upoles,
            vpoles,
            poles,
            uknots,
            umult,
            vknots,
            vmult,
        } => {
            let net = spline_net(*flags, (*udegree, *vdegree), (*upoles, *vpoles));
            spline_part(net, poles, uknots, umult, vknots, vmult)
        }
        Surface::Trimmed { texts, basis } => {
            return SurfaceSpell {
                part: coded(10, texts),
                basis: Some(basis.get()),
            };
        }
        Surface::Offset { texts, basis } => {
            return SurfaceSpell {
                part: coded(11, texts),
                basis: Some(basis.get()),
            };
        }
    };
    SurfaceSpell { part, basis: None }
}

impl Surface {
    ghost use Rattle.std.specs.Prelude.{◌≡◌};
    ghost use Rattle.surface_tables.specs.Shapes.{CanSpellSurface};
    ghost use Rattle.surface_tables.specs.SpellLeft.{CanGive, tokens_left};
    ghost use Rattle.surface_tables.specs.Spelling.{spell_surface};

    /// The texts of its tokens. It takes no memory.
    pub fn spell(&self) -> SurfaceSpell<'_>
        requires { CanSpellSurface self.now }
        ensures left { tokens_left result ≡ spell_surface self.now }
        ensures can { CanGive result }
    {
        start(self)
    }
}

impl<'a> Iterator for SurfaceSpell<'a> {
    ghost use Rattle.std.specs.Iterator.{YieldsFirst, item_count};
    ghost use Rattle.surface_tables.specs.SpellLeft.{CanGive, tokens_left};

    type Item = TokenText;

    ghost next_gives = { YieldsFirst tokens_left };

    ghost remaining = { item_count tokens_left };

    ghost can_next = { CanGive };

    fn next(&mut self) -> Option<TokenText> {
        if let Some(t) = self.part.next() {
            return Some(t);
        }
        match self.basis {
            None => None,
            Some(basis) => {
                *self = start(basis);
                self.part.next()
            }
        }
    }
}
