//! The words of a section's places, by their numbers in a table.
ghost use Rattle.file_loading.specs.Places.{HoldWordsOf, KeepsWords};
ghost use Rattle.location_table.specs.Words.{word_of_place};
ghost use Rattle.location_words.specs.Tables.{IsTable};
ghost use Rattle.std.specs.Prelude.{◌≡◌, ◌≤◌, IfOk, OnOk, Some, length, slice_get};

use location_table::Locations;
use location_words::{WordId, Words};
use std::alloc::{AllocError, Global};

/// The number of the word of a place, which is entered where the table doesn't hold it yet.
fn place_word(section: &Locations, place: u32, words: &mut Words) -> Result<WordId, AllocError>
    requires { place ≤ length section.now }
    ensures held { IfOk result (λ id. slice_get words.new id.0 ≡ Some (word_of_place section.now place)) }
    ensures kept { OnOk result (KeepsWords words.old words.new) }
    ensures table { OnOk result (IsTable words.new) }
{
    let word = section.word(place).clone()?;
    let id = words.intern(word)?;
    Ok(id)
}

/// The numbers of the words of all places, from the place 0 on, which is the identity.
pub(crate) fn place_words(
    alloc: Global,
    section: &Locations,
    words: &mut Words,
) -> Result<Vec<WordId>, AllocError>
    ensures held { IfOk result (λ ids. HoldWordsOf section.now words.new ids.items) }
    ensures kept { OnOk result (KeepsWords words.old words.new) }
    ensures table { OnOk result (IsTable words.new) }
{
    let mut ids = Vec::new(alloc);
    ids.push(place_word(section, 0, words)?)?;
    'places: for place in 0..section.len() {
        ids.push(place_word(section, place + 1, words)?)?;
    }
    Ok(ids)
}
