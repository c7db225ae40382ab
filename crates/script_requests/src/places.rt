//! The words of a file's locations, by their numbers in a table.
ghost use Rattle.std.specs.Prelude.{◌≤◌, IfOk, length};
ghost use Rattle.location_words.specs.Tables.{IsTable};
ghost use Rattle.file_loading.specs.Places.{KeepsWords};
ghost use Rattle.script_requests.specs.Numbered.{IsLocationOf, IsPlaceOf, IsWordOf};

use brep_file::File;
use location_words::{WordId, Words};
use std::alloc::AllocError;

/// The number of the word of a location, which the table holds afterwards.
pub(crate) fn word_of(file: &File, words: &mut Words, location: u32) -> Result<WordId, AllocError>
    requires location { location ≤ length file.now.locations }
    requires table { IsTable words.old }
    ensures word { IfOk result (IsWordOf file.now words.new location) }
    ensures kept { KeepsWords words.old words.new }
    ensures table { IsTable words.new }
{
    let word = file.locations.word(location).clone()?;
    let id = words.intern(word)?;
    Ok(id)
}

/// The same of a location that may be missing.
pub(crate) fn place_of(
    file: &File,
    words: &mut Words,
    location: Option<u32>,
) -> Result<Option<WordId>, AllocError>
    requires location { IsLocationOf file.now location }
    requires table { IsTable words.old }
    ensures place { IfOk result (IsPlaceOf file.now words.new location) }
    ensures kept { KeepsWords words.old words.new }
    ensures table { IsTable words.new }
{
    match location {
        None => Ok(None),
        Some(location) => {
            let id = word_of(file, words, location)?;
            Ok(Some(id))
        }
    }
}
