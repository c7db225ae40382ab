//! Limits of maps of shapes, and why a map is refused.
ghost use Rattle.std.specs.Prelude.{◌≡◌, Option};
ghost use Rattle.subshape_maps.specs.declared.fault.MapFault.TheVariants.{NoMemory};
ghost use Rattle.location_words.specs.declared.fault.WordFault.{WordFault};
ghost use Rattle.location_words.specs.Faults.{IsDueFault};
ghost use Rattle.subshape_maps.specs.Refusals.{IsDueWord};

use location_words::WordFault;
use std::alloc::AllocError;

/// The greatest number of shapes of any kind that a map meets.
pub const MOST_SHAPES: usize = 1_048_576;

/// The greatest number of pairs of a low shape and a high one above it.
pub const MOST_ABOVE: u64 = 16_777_216;

/// Why a map of shapes is refused.
#[derive(Clone, Copy, Debug, PartialEq, Eq)]
pub enum MapFault {
    /// An accumulated word is past the limits of words, by its pairs or by a power.
    Word(WordFault),
    /// More than 1,048,576 shapes of any kind are met: one more than that.
    Keys(u64),
    /// More than 16,777,216 pairs of a low shape and a high one above it: one more than that.
    Pairs(u64),
    /// Want of memory.
    NoMemory,
}

/// Want of memory refuses a map.
impl From<AllocError> for MapFault {
    ghost from_gives = { λ _ fault. fault ≡ NoMemory };

    fn from(_: AllocError) -> MapFault {
        MapFault::NoMemory
    }
}

/// Why a map is refused where a word is.
pub(crate) fn of_word(fault: WordFault) -> MapFault
    ensures { (due : Option WordFault) → IsDueFault due fault → IsDueWord due result }
{
    match fault {
        WordFault::NoMemory => MapFault::NoMemory,
        past => MapFault::Word(past),
    }
}
