//! Laws of files and of the texts that spell them, each the contract of a function that does nothing.
ghost use Rattle.brep_writer.specs.Copies.{CopiesAreCountable, TextsStandForRoots};

use brep_file::laws::reading_is_exact;
use expansion_laws::laws::{fewest, records_are_trees, roots_are_written, subtrees_stand};
use file_loading::laws::sound_files_have_trees;
use location_table::laws::{places_have_words, written_is_held};
use tshape_data::laws::{head_lines_are_exact, renumbering_keeps_parts};
use written_heads::laws::locations_stay;
use written_layout::laws::layouts_spell;
use written_locations::laws::{further_words_are_due, numbers_are_places, sections_hold};

/// The text that is written for a root, in the file's version or in version 1, spells one file, which stands for that
/// root.
pub fn texts_stand_for_roots()
    ensures { TextsStandForRoots }
{
    roots_are_written();
    records_are_trees();
    fewest();
    sound_files_have_trees();
    reading_is_exact();
    places_have_words();
    written_is_held();
    renumbering_keeps_parts();
    subtrees_stand();
    sections_hold();
    further_words_are_due();
    numbers_are_places();
    layouts_spell();
    locations_stay();
}

/// The text of the copy of a file that is read has fewer bytes than 2 ^ 64.
pub fn copies_are_countable()
    ensures { CopiesAreCountable }
{
    roots_are_written();
    records_are_trees();
    fewest();
    sound_files_have_trees();
    places_have_words();
    written_is_held();
    head_lines_are_exact();
    renumbering_keeps_parts();
    subtrees_stand();
    sections_hold();
    further_words_are_due();
    numbers_are_places();
}
