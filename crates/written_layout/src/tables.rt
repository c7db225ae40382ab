//! The tables of a file, as they are: each entry on a line.
ghost use Rattle.brep_file.specs.Sound.{IsSound};
ghost use Rattle.written_layout.specs.Layout.{section_text, table_lines};
ghost use Rattle.brep_tokens.specs.Written.{line_text, lines_text};
ghost use Rattle.curve_tables.specs.Shapes.{CanSpell2, CanSpell3};
ghost use Rattle.curve_tables.specs.Spelling.{spelling2, spelling3};
ghost use Rattle.mesh_tables.specs.Sound.{CanSpellMesh, CanSpellPolygon, CanSpellPolygonOn};
ghost use Rattle.mesh_tables.specs.Spelling.{spell_mesh, spell_polygon, spell_polygon_on};
ghost use Rattle.std.specs.Fmt.{decimal};
ghost use Rattle.std.specs.Iterator.{Drains, IsFinite};
ghost use Rattle.surface_tables.specs.Shapes.{CanSpellSurface};
ghost use Rattle.surface_tables.specs.Spelling.{spell_surface};
ghost use Rattle.std.specs.Prelude.{◌∷◌, ℕ, All, List, if◌then◌else◌};

use crate::lines::{push_heading, push_number};
use brep_file::File;
use brep_tokens::{Decimals, TokenText};
use byte_sink::{TakesBytes, push_byte};
use curve_tables::laws::curves_are_exact;
use curve_tables::{Curve2, Curve3};
use location_table::LocationEntry;
use mesh_tables::laws::{meshes_are_exact, meshes_can_be_spelled};
use mesh_tables::{Mesh, Polygon3, PolygonOnMesh};
use surface_tables::Surface;
use surface_tables::laws::surfaces_are_exact;

/// A token, with a space before it unless it is the first of its line.
fn push_token<B: TakesBytes>(text: &mut B, token: &TokenText, first: bool)
    ensures { B.gives text.old (if first then token.now else 32 ∷ token.now) text.new }
{
    if first {
        text.push(token.bytes());
    } else {
        push_byte(text, b' ');
        text.push(token.bytes());
    }
}

/// Tokens on a line, one space between neighbours.
fn push_line<B: TakesBytes, I: Iterator<Item = TokenText> + Drop>(text: &mut B, tokens: I)
    requires can { I.can_next tokens }
    requires ends { IsFinite (I.remaining tokens) }
    ensures { (words : List (List ℕ)) × Drains I.next_gives tokens words
        × B.gives text.old (line_text words) text.new }
{
    let mut first = true;
    for token in tokens {
        push_token(text, &token, first);
        first = false;
    }
    push_byte(text, b'\n');
}

/// A number and the decimals behind it, on a line.
fn push_numbered<B: TakesBytes>(text: &mut B, number: u8, decimals: &Decimals)
    ensures { B.gives text.old (line_text (decimal number ∷ decimals.now)) text.new }
{
    push_number(text, number as usize);
    text.push(decimals.spaced());
    push_byte(text, b'\n');
}

/// An entry of a table.
pub(crate) trait TableEntry {
    // its tokens
    ghost spelling: { Self → List (List ℕ) };

    // it is well shaped, and its tokens aren't too long
    ghost can_spell: { Self → Type 0 };

    /// Its tokens on a line.
    fn push_to<B: TakesBytes>(&self, text: &mut B)
        requires { can_spell self.now }
        ensures { B.gives text.old (line_text (spelling self.now)) text.new };
}

impl TableEntry for LocationEntry {
    ghost use Rattle.location_table.specs.Locations.{spell_location};
    ghost use Rattle.location_table.specs.Spell.{CanSpellLocation};

    ghost spelling = { spell_location };

    ghost can_spell = { CanSpellLocation };

    fn push_to<B: TakesBytes>(&self, text: &mut B) {
        push_line(text, self.spell())
    }
}

impl TableEntry for Curve2 {
    ghost use Rattle.curve_tables.specs.Shapes.{CanSpell2};
    ghost use Rattle.curve_tables.specs.Spelling.{spelling2};

    ghost spelling = { spelling2 };

    ghost can_spell = { CanSpell2 };

    fn push_to<B: TakesBytes>(&self, text: &mut B) {
        match self {
            Curve2::Plain { code, texts } => push_numbered(text, *code, texts),
            _ => push_line(text, self.spell()),
        }
    }
}

impl TableEntry for Curve3 {
    ghost use Rattle.curve_tables.specs.Shapes.{CanSpell3};
    ghost use Rattle.curve_tables.specs.Spelling.{spelling3};

    ghost spelling = { spelling3 };

    ghost can_spell = { CanSpell3 };

    fn push_to<B: TakesBytes>(&self, text: &mut B) {
        match self {
            Curve3::Plain { code, texts } => push_numbered(text, *code, texts),
            _ => push_line(text, self.spell()),
        }
    }
}

impl TableEntry for Polygon3 {
    ghost use Rattle.mesh_tables.specs.Sound.{CanSpellPolygon};
    ghost use Rattle.mesh_tables.specs.Spelling.{spell_polygon};

    ghost spelling = { spell_polygon };

    ghost can_spell = { CanSpellPolygon };

    fn push_to<B: TakesBytes>(&self, text: &mut B) {
        push_line(text, self.spell())
    }
}

impl TableEntry for PolygonOnMesh {
    ghost use Rattle.mesh_tables.specs.Sound.{CanSpellPolygonOn};
    ghost use Rattle.mesh_tables.specs.Spelling.{spell_polygon_on};

    ghost spelling = { spell_polygon_on };

    ghost can_spell = { CanSpellPolygonOn };

    fn push_to<B: TakesBytes>(&self, text: &mut B) {
        push_line(text, self.spell())
    }
}

impl TableEntry for Surface {
    ghost use Rattle.surface_tables.specs.Shapes.{CanSpellSurface};
    ghost use Rattle.surface_tables.specs.Spelling.{spell_surface};

    ghost spelling = { spell_surface };

    ghost can_spell = { CanSpellSurface };

    fn push_to<B: TakesBytes>(&self, text: &mut B) {
        match self {
            Surface::Plain { code, texts } => push_numbered(text, *code, texts),
            _ => push_line(text, self.spell()),
        }
    }
}

impl TableEntry for Mesh {
    ghost use Rattle.mesh_tables.specs.Sound.{CanSpellMesh};
    ghost use Rattle.mesh_tables.specs.Spelling.{spell_mesh};

    ghost spelling = { spell_mesh };

    ghost can_spell = { CanSpellMesh };

    fn push_to<B: TakesBytes>(&self, text: &mut B) {
        push_line(text, self.spell())
    }
}

/// A section: its heading, and each entry on a line.
fn push_section<B: TakesBytes, T: TableEntry>(text: &mut B, word: &[u8], entries: &[T])
    requires { All T.can_spell entries.now }
    ensures { B.gives text.old (section_text word.now T.spelling entries.now) text.new }
{
    push_heading(text, word, entries.len());
    for entry in entries {
        entry.push_to(text);
    }
}

/// The sections after the locations and before the records.
pub(crate) fn push_tables<B: TakesBytes>(text: &mut B, file: &File)
    requires { IsSound file.now }
    ensures { B.gives text.old (lines_text (table_lines file.now)) text.new }
{
    curves_are_exact();
    surfaces_are_exact();
    meshes_are_exact();
    meshes_can_be_spelled();
    push_section(text, b"Curve2ds", file.curve2s.as_slice());
    push_section(text, b"Curves", file.curves.as_slice());
    push_section(text, b"Polygon3D", file.polygons.as_slice());
    push_section(
        text,
        b"PolygonOnTriangulations",
        file.polygons_on.as_slice(),
    );
    push_section(text, b"Surfaces", file.surfaces.as_slice());
    push_section(text, b"Triangulations", file.meshes.as_slice());
}
