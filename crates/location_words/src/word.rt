//! Words: reduced lists of powers of datums.
ghost use Rattle.std.specs.Prelude.{◌≡◌, ◌≢◌, ◌≤◌, List, [], None, length, Err, IfErr, IfOk, IsOk, OnOk};
ghost use Rattle.location_words.specs.Faults.{fault_of, IsDueFault};
ghost use Rattle.location_words.specs.Pairs.{inverse as inverse_of, norm, IsHeldWord};

use crate::sum::{take_all, within};
use crate::{Pair, WordFault};
use smallvec::SmallVec;
use std::alloc::{AllocError, Global};
use std::marker::Model;

/// A reduced product of powers of datums, innermost factor first: no power is 0, and no two neighbours are of one
/// datum.
///
/// It has at most 4,096 pairs, and no power of a size past 1,099,511,627,776. Up to four pairs take no memory.
#[derive(Debug, Drop)]
pub struct Word {
    pub(crate) pairs: SmallVec<Pair, 4>,
}

impl Model for Word {
    ghost use Rattle.std.specs.Prelude.{List};
    ghost use Rattle.location_words.specs.declared.pair.Pair.{Pair};
    ghost use Rattle.location_words.specs.Pairs.{IsHeldWord};

    ghost Value = { List Pair };

    ghost view = { λ w. w.pairs.items };

    ghost invariant = { λ w. IsHeldWord w.pairs.items };
}

impl Word {
    /// The identity, which has no pairs.
    pub fn identity(alloc: Global) -> Word
        ensures { result ≡ [] }
    {
        Word {
            pairs: SmallVec::new(alloc),
        }
    }

    /// The word of a list of pairs, innermost factor first. Pairs of power 0 and neighbours of one datum are reduced.
    pub fn of(alloc: Global, pairs: &[Pair]) -> Result<Word, WordFault>
        ensures ok { IfOk result (λ w. w ≡ norm pairs.now) }
        ensures within { OnOk result (fault_of (norm pairs.now) ≡ None) }
        ensures refused { IfErr result (λ fault. IsDueFault (fault_of (norm pairs.now)) fault) }
        ensures inline { length pairs.now ≤ 4 → result ≢ Err WordFault.NoMemory }
    {
        let mut sum = SmallVec::new(alloc);
        match take_all(&mut sum, pairs) {
            Ok(()) => within(alloc, sum.as_slice()),
            Err(_) => Err(WordFault::NoMemory),
        }
    }

    /// The pairs, innermost factor first.
    pub fn pairs(&self) -> &[Pair]
        ensures pairs { result.now ≡ self.now }
        ensures held { IsHeldWord self.now }
    {
        self.pairs.as_slice()
    }
}

/// The inverse of a word: its pairs in the other order, with their powers negated.
pub fn inverse(w: &Word) -> Result<Word, AllocError>
    ensures ok { IfOk result (λ v. v ≡ inverse_of w.now) }
    ensures inline { length w.now ≤ 4 → IsOk result }
{
    let mut pairs = SmallVec::new(*w.pairs.allocator());
    let items = w.pairs.as_slice();
    for i in 0..items.len() {
        let p = items[items.len() - 1 - i];
        pairs.push(Pair {
            datum: p.datum,
            power: -p.power,
        })?;
    }
    Ok(Word { pairs })
}
