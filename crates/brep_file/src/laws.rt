//! Laws of files, each the contract of a function that does nothing.
ghost use Rattle.brep_file.specs.ReadingLaws.{ReadingIsExact};

use brep_tokens::laws::{forms_are_exact, scanner_gives_tokens};
use curve_tables::laws::curves_are_exact;
use entry_readers::laws::fields_are_exact;
use location_table::laws::sections_are_exact;
use mesh_tables::laws::meshes_are_exact;
use orientation::laws::signs_and_names_tell;
use surface_tables::laws::surfaces_are_exact;
use tshape_data::laws::{heads_are_exact, heads_tell};

/// What is read is spelled so, what is spelled so is read, and a text spells one file at most; so do a version and its
/// tokens.
pub fn reading_is_exact()
    ensures { ReadingIsExact }
{
    scanner_gives_tokens();
    forms_are_exact();
    fields_are_exact();
    signs_and_names_tell();
    sections_are_exact();
    curves_are_exact();
    meshes_are_exact();
    surfaces_are_exact();
    heads_are_exact();
    heads_tell();
}
