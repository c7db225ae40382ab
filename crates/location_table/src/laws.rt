//! Laws of locations. Each function does nothing: its contract is the law.
ghost use Rattle.location_table.specs.Laws.{LocationsAreExact, PlacesHaveWords, WrittenIsHeld};
ghost use Rattle.location_table.specs.Sections.{SectionsAreExact};

use brep_tokens::laws::{forms_are_exact, written_is_read};
use entry_readers::laws::fields_are_exact;
use location_words::laws::{limits_tell, pairs_make_words, words_are_a_group};

/// An entry is read exactly as it is spelled.
pub fn locations_are_exact()
    ensures { LocationsAreExact }
{
    fields_are_exact();
    forms_are_exact();
    written_is_read();
}

/// Each place of a section has a word; in a sound section it is within the limits.
pub fn places_have_words()
    ensures { PlacesHaveWords }
{
    words_are_a_group();
    limits_tell();
}

/// A word that is written as a product of datums is that very word.
pub fn written_is_held()
    ensures { WrittenIsHeld }
{
    words_are_a_group();
    pairs_make_words();
    limits_tell();
}

/// A section is read exactly as it is spelled.
pub fn sections_are_exact()
    ensures { SectionsAreExact }
{
    fields_are_exact();
    locations_are_exact();
}
