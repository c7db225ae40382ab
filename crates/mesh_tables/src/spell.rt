//! The tokens of an entry, one after another.
ghost use Rattle.std.specs.Prelude.{◌≡◌};
ghost use Rattle.std.specs.Fmt.{decimal};
ghost use Rattle.brep_tokens.specs.Forms.{flag_text};

use crate::entries::{Mesh, Polygon3, PolygonOnMesh};
use brep_tokens::TokenText;
use entry_readers::{DecimalsSpell, HeaderSpell, NumbersSpell, number_text};

/// The number that is spelled as the flag is.
fn bit(flag: bool) -> u64
    ensures { decimal result ≡ flag_text flag }
{
    if flag { 1 } else { 0 }
}

/// Gives the texts of the tokens of a polygon in space.
#[derive(Clone, Copy)]
pub struct Polygon3Spell<'a> {
    header: HeaderSpell,
    texts: DecimalsSpell<'a>,
}

impl Polygon3 {
    ghost use Rattle.std.specs.Prelude.{◌≡◌};
    ghost use Rattle.mesh_tables.specs.Sound.{CanSpellPolygon};
    ghost use Rattle.mesh_tables.specs.SpellLeft.{CanGivePolygon, polygon_tokens_left};
    ghost use Rattle.mesh_tables.specs.Spelling.{spell_polygon};

    /// The texts of its tokens, from the first to the last.
    pub fn spell(&self) -> Polygon3Spell<'_>
        requires { CanSpellPolygon self.now }
        ensures left { polygon_tokens_left result ≡ spell_polygon self.now }
        ensures can { CanGivePolygon result }
    {
        Polygon3Spell {
            header: HeaderSpell::new(
                [self.nodes, bit(self.params), 0, 0, 0, 0, 0, 0, 0, 0, 0, 0],
                2,
            ),
            texts: DecimalsSpell::new(&self.texts),
        }
    }
}

impl<'a> Iterator for Polygon3Spell<'a> {
    ghost use Rattle.std.specs.Iterator.{YieldsFirst, item_count};
    ghost use Rattle.mesh_tables.specs.SpellLeft.{CanGivePolygon, polygon_tokens_left};

    type Item = TokenText;

    ghost next_gives = { YieldsFirst polygon_tokens_left };

    ghost remaining = { item_count polygon_tokens_left };

    ghost can_next = { CanGivePolygon };

    fn next(&mut self) -> Option<TokenText> {
        match self.header.next() {
            Some(t) => Some(t),
            None => self.texts.next(),
        }
    }
}

/// The part of a polygon on a mesh whose token is next.
#[derive(Clone, Copy)]
pub enum Part {
    Count { count: u64 },
    Nodes,
    Deflection,
    Flag,
    Params,
}

/// Gives the texts of the tokens of a polygon on a mesh.
#[derive(Clone, Copy)]
pub struct PolygonOnMeshSpell<'a> {
    part: Part,
    nodes: NumbersSpell<'a>,
    params: bool,
    texts: DecimalsSpell<'a>,
}

impl PolygonOnMesh {
    ghost use Rattle.std.specs.Prelude.{◌≡◌};
    ghost use Rattle.mesh_tables.specs.Sound.{CanSpellPolygonOn};
    ghost use Rattle.mesh_tables.specs.SpellLeft.{CanGivePolygonOn, polygon_on_tokens_left};
    ghost use Rattle.mesh_tables.specs.Spelling.{spell_polygon_on};

    /// The texts of its tokens, from the first to the last.
    pub fn spell(&self) -> PolygonOnMeshSpell<'_>
        requires { CanSpellPolygonOn self.now }
        ensures left { polygon_on_tokens_left result ≡ spell_polygon_on self.now }
        ensures can { CanGivePolygonOn result }
    {
        PolygonOnMeshSpell {
            part: Part::Count {
                count: self.nodes.len() as u64,
            },
            nodes: NumbersSpell::new(&self.nodes),
            params: self.params,
            texts: DecimalsSpell::new(&self.texts),
        }
    }
}

impl<'a> Iterator for PolygonOnMeshSpell<'a> {
    ghost use Rattle.std.specs.Iterator.{YieldsFirst, item_count};
    ghost use Rattle.mesh_tables.specs.SpellLeft.{CanGivePolygonOn, polygon_on_tokens_left};

    type Item = TokenText;

    ghost next_gives = { YieldsFirst polygon_on_tokens_left };

    ghost remaining = { item_count polygon_on_tokens_left };

    ghost can_next = { CanGivePolygonOn };

    fn next(&mut self) -> Option<TokenText> {
        match self.part {
            Part::Count { count } => {
                self.part = Part::Nodes;
                Some(number_text(count))
            }
            Part::Nodes => match self.nodes.next() {
                Some(t) => Some(t),
                None => {
                    self.part = Part::Deflection;
                    Some(TokenText::of(b"p"))
                }
            },
            Part::Deflection => {
                self.part = Part::Flag;
                self.texts.next()
            }
            Part::Flag => {
                self.part = Part::Params;
                Some(number_text(bit(self.params)))
            }
            Part::Params => self.texts.next(),
        }
    }
}

/// Gives the texts of the tokens of a mesh.
#[derive(Clone, Copy)]
pub struct MeshSpell<'a> {
    header: HeaderSpell,
    texts: DecimalsSpell<'a>,
    corners: NumbersSpell<'a>,
}

impl Mesh {
    ghost use Rattle.std.specs.Prelude.{◌≡◌};
    ghost use Rattle.mesh_tables.specs.Sound.{CanSpellMesh};
    ghost use Rattle.mesh_tables.specs.SpellLeft.{CanGiveMesh, mesh_tokens_left};
    ghost use Rattle.mesh_tables.specs.Spelling.{spell_mesh};

    /// The texts of its tokens, from the first to the last.
    pub fn spell(&self) -> MeshSpell<'_>
        requires { CanSpellMesh self.now }
        ensures left { mesh_tokens_left result ≡ spell_mesh self.now }
        ensures can { CanGiveMesh result }
    {
        MeshSpell {
            header: HeaderSpell::new(
                [
                    self.nodes,
                    self.triangles,
                    bit(self.uv),
                    0,
                    0,
                    0,
                    0,
                    0,
                    0,
                    0,
                    0,
                    0,
                ],
                3,
            ),
            texts: DecimalsSpell::new(&self.texts),
            corners: NumbersSpell::new(&self.corners),
        }
    }
}

impl<'a> Iterator for MeshSpell<'a> {
    ghost use Rattle.std.specs.Iterator.{YieldsFirst, item_count};
    ghost use Rattle.mesh_tables.specs.SpellLeft.{CanGiveMesh, mesh_tokens_left};

    type Item = TokenText;

    ghost next_gives = { YieldsFirst mesh_tokens_left };

    ghost remaining = { item_count mesh_tokens_left };

    ghost can_next = { CanGiveMesh };

    fn next(&mut self) -> Option<TokenText> {
        if let Some(t) = self.header.next() {
            return Some(t);
        }
        match self.texts.next() {
            Some(t) => Some(t),
            None => self.corners.next(),
        }
    }
}
