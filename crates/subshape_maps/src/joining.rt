//! Accumulated words by number.
ghost use Rattle.std.specs.Prelude.{◌≡◌, ◌<◌, None, Some, IfErr, IfOk, OnOk, length, slice_get};
ghost use Rattle.location_words.specs.Faults.{fault_of};
ghost use Rattle.location_words.specs.Tables.{IsTable};
ghost use Rattle.subshape_maps.specs.Numbered.{joined_in, Grows};
ghost use Rattle.subshape_maps.specs.Refusals.{IsDueWord};

use crate::fault::{MapFault, of_word};
use location_words::{WordId, Words, mul};

/// The number of the accumulated word of a use, by those of its parent's accumulated word and of its own.
pub(crate) fn joined(words: &mut Words, above: WordId, place: WordId) -> Result<WordId, MapFault>
    requires above { above.0 < length words.old }
    requires place { place.0 < length words.old }
    ensures ok { IfOk result (λ id. slice_get words.new id.0 ≡ Some (joined_in words.old above place)) }
    ensures within { OnOk result (fault_of (joined_in words.old above place) ≡ None) }
    ensures refused { IfErr result (IsDueWord (fault_of (joined_in words.old above place))) }
    ensures grows { Grows words.old words.new }
    ensures table { IsTable words.new }
{
    let product = match mul(words.word(above), words.word(place)) {
        Ok(product) => product,
        Err(fault) => return Err(of_word(fault)),
    };
    match words.intern(product) {
        Ok(id) => Ok(id),
        Err(_) => Err(MapFault::NoMemory),
    }
}
