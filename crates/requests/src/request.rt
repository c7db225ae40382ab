//! What a step is asked for.
ghost use Rattle.std.specs.Prelude.{◌≡◌};
ghost use Rattle.requests.specs.Numbered.{allows_at, is_plain};

use lists::ListOf;
use location_words::WordId;
use orientation::Turn;
use shape_pool::{NodeId, UseOf};

/// What becomes of an occurrence that a request meets.
#[derive(Clone, Copy, Debug, PartialEq, Eq)]
pub enum Act {
    /// It goes.
    Remove,
    /// A use of a target stands in its place.
    Replace(UseOf),
}

/// A request for the occurrences of a node, at one place or under one turn alone where these are given.
#[derive(Clone, Copy, Debug, PartialEq, Eq)]
pub struct Request {
    pub source: NodeId,
    /// The accumulated word of the occurrences that it is for.
    pub place: Option<WordId>,
    /// The accumulated turn of the occurrences that it is for.
    pub turn: Option<Turn>,
    pub act: Act,
}

/// Requests in the order given.
pub type Requests = ListOf<Request>;

impl Request {
    /// Whether it is for all occurrences of its node: it has neither a place nor a turn.
    pub fn is_unconditional(&self) -> bool
        ensures { result ≡ is_plain self.now }
    {
        self.place.is_none() && self.turn.is_none()
    }

    /// Whether its place and its turn, where it has them, are these.
    pub fn allows(&self, turn: Turn, word: WordId) -> bool
        ensures { result ≡ allows_at turn word.0 self.now }
    {
        let place_fits = match self.place {
            None => true,
            Some(place) => place.0 == word.0,
        };
        let turn_fits = match self.turn {
            None => true,
            Some(own) => own == turn,
        };
        place_fits && turn_fits
    }
}
