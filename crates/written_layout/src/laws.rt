//! Laws of the layout. Each function does nothing: its contract is the law.
ghost use Rattle.written_layout.specs.Laws.{LayoutsSpell, TextsHaveParts};

use brep_tokens::laws::written_is_read;
use curve_tables::laws::curves_are_exact;
use location_table::laws::locations_are_exact;
use mesh_tables::laws::meshes_are_exact;
use surface_tables::laws::surfaces_are_exact;
use tshape_data::laws::head_lines_are_exact;

/// The layout of a sound file spells it.
pub fn layouts_spell()
    ensures { LayoutsSpell }
{
    written_is_read();
    locations_are_exact();
    curves_are_exact();
    surfaces_are_exact();
    meshes_are_exact();
    head_lines_are_exact();
}

/// A record's lines and a layout have their parts one after another.
pub fn texts_have_parts()
    ensures { TextsHaveParts }
{}
