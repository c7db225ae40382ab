//! What an explorer gives, and why it goes on no further.
ghost use Rattle.std.specs.Prelude.{◌≡◌};
ghost use Rattle.explorer.specs.Going.{limit_of as limit_of_fault};

use location_words::WordFault;
use orientation::Turn;
use shape_pool::NodeId;

/// An occurrence: its accumulated turn, and the number of its node.
#[derive(Clone, Copy, Debug, PartialEq, Eq)]
pub struct Found {
    pub turn: Turn,
    pub id: NodeId,
}

/// An accumulated word is past a limit of words.
#[derive(Clone, Copy, Debug, PartialEq, Eq)]
pub struct WordLimit {
    /// Whether it is the limit of pairs, and else that of powers.
    pub pairs: bool,
    /// The number of pairs, or the size of the power.
    pub count: u128,
}

/// The limit that a word passes.
pub(crate) fn limit_of(fault: WordFault) -> WordLimit
    ensures { result ≡ limit_of_fault fault }
{
    match fault {
        WordFault::Pairs(count) => WordLimit { pairs: true, count },
        WordFault::Power(count) => WordLimit {
            pairs: false,
            count,
        },
        WordFault::NoMemory => WordLimit {
            pairs: false,
            count: 0,
        },
    }
}
