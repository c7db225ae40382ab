//! Keys of visits, by numbers.
ghost use Rattle.std.specs.Prelude.{◌≡◌};
ghost use Rattle.key_results.specs.Memos.{place_here, turn_here};

use crate::words::IDENTITY;
use location_words::WordId;
use orientation::Turn;
use shape_pool::NodeId;

/// The key of a visit: its node, and its accumulated word and turn where the relative results depend on them.
#[derive(Clone, Copy, Debug, PartialEq, Eq, Hash)]
pub struct Key {
    pub id: NodeId,
    pub word: Option<WordId>,
    pub turn: Option<Turn>,
}

impl Key {
    /// The turn of the context that stands for the key.
    pub fn turn_here(self) -> Turn
        ensures { result ≡ turn_here self }
    {
        match self.turn {
            Some(turn) => turn,
            None => Turn::Forward,
        }
    }

    /// The word of the context that stands for the key.
    pub fn word_here(self) -> WordId
        ensures { result.0 ≡ place_here self }
    {
        match self.word {
            Some(word) => word,
            None => IDENTITY,
        }
    }
}
