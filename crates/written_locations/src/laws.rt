//! Laws of the words that are written. Each function does nothing: its contract is the law.
ghost use Rattle.written_locations.specs.Laws.{AddedPartsJoin, FurtherWordsAreDue, NumbersArePlaces, SectionsHold};

use location_table::laws::written_is_held;

/// A section has no more datums than entries, and the word of each place is among its words.
pub fn sections_hold()
    ensures { SectionsHold }
{}

/// The further words of a list are those of its words that have no number of their own, each once.
pub fn further_words_are_due()
    ensures { FurtherWordsAreDue }
{}

/// The number of a word that is written is a place of the written section, and that place has this very word.
pub fn numbers_are_places()
    ensures { NumbersArePlaces }
{
    written_is_held();
}

/// What is added in two parts is added as one list.
pub fn added_parts_join()
    ensures { AddedPartsJoin }
{}
