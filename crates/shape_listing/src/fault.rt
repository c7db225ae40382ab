//! Why a listing is refused.
ghost use Rattle.std.specs.Prelude.{◌≡◌};
ghost use Rattle.shape_listing.specs.Causes.{of_limit, of_map};
ghost use Rattle.shape_listing.specs.declared.fault.ListingFault.TheVariants.{NoMemory};

use explorer::WordLimit;
use location_words::WordFault;
use std::alloc::AllocError;
use subshape_maps::MapFault;

/// Why a listing is refused: a limit that is passed, with the count that is told of it, or want of memory.
#[derive(Clone, Copy, Debug, PartialEq, Eq)]
pub enum ListingFault {
    /// More than 1,048,576 shapes of any kind are met: one more than that.
    Keys(u64),
    /// An accumulated word has more than 4,096 pairs: so many.
    WordPairs(u128),
    /// The size of a power in an accumulated word is past 1,099,511,627,776: the size.
    WordPower(u128),
    /// There are more than 16,777,216 pairs of a shape and one above it: one more than that.
    Pairs(u64),
    /// Want of memory.
    NoMemory,
}

/// Want of memory refuses a listing.
impl From<AllocError> for ListingFault {
    ghost from_gives = { λ _ fault. fault ≡ NoMemory };

    fn from(_: AllocError) -> ListingFault {
        ListingFault::NoMemory
    }
}

/// Why a listing is refused where a map of shapes is.
impl From<MapFault> for ListingFault {
    ghost from_gives = { λ map fault. fault ≡ of_map map };

    fn from(fault: MapFault) -> ListingFault {
        match fault {
            MapFault::Word(WordFault::Pairs(count)) => ListingFault::WordPairs(count),
            MapFault::Word(WordFault::Power(count)) => ListingFault::WordPower(count),
            MapFault::Word(WordFault::NoMemory) => ListingFault::NoMemory,
            MapFault::Keys(count) => ListingFault::Keys(count),
            MapFault::Pairs(count) => ListingFault::Pairs(count),
            MapFault::NoMemory => ListingFault::NoMemory,
        }
    }
}

/// Why a listing is refused where an explorer is.
impl From<WordLimit> for ListingFault {
    ghost from_gives = { λ limit fault. fault ≡ of_limit limit };

    fn from(limit: WordLimit) -> ListingFault {
        if limit.pairs {
            ListingFault::WordPairs(limit.count)
        } else {
            ListingFault::WordPower(limit.count)
        }
    }
}
