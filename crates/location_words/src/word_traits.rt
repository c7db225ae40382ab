//! The standard traits at `Word`.
ghost use Rattle.std.specs.Prelude.{◌≡◌, ◌≤◌, length, MatchResult};
ghost use Rattle.std.specs.Cmp.Rules.{comparing};
ghost use Rattle.std.specs.Hash as fed;
ghost use Rattle.std.proofs.Common.{ap, rules};
ghost use Rattle.location_words.specs.Equal.{pairs_decide};
ghost use Rattle.location_words.specs.Pairs.{pairs_eq};
ghost use Rattle.location_words.specs.Hashed.{word_input};

use crate::Word;
use smallvec::SmallVec;
use std::alloc::AllocError;
use std::hash::{Hash, Hasher};

impl Clone for Word {
    ghost is_clone = { λ v w. w ≡ v };

    ghost is_infallible = { λ v. length v ≤ 4 };

    fn clone(&self) -> Result<Word, AllocError>
        ensures cases { MatchResult result (λ w. w ≡ self.now) (λ _. ¬ (length self.now ≤ 4)) }
    {
        let pairs = SmallVec::from_slice(*self.pairs.allocator(), self.pairs.as_slice())?;
        Ok(Word { pairs })
    }
}

impl PartialEq for Word {
    ghost eq = { pairs_eq };

    ghost laws = { Prim.search (comparing, rules) };

    fn eq(&self, other: &Word) -> bool {
        self.pairs.as_slice() == other.pairs.as_slice()
    }
}

impl Eq for Word {
    ghost laws = { Prim.search (comparing, rules) };
}

impl Hash for Word {
    ghost hash_input = { λ w. word_input w };

    ghost respects_eq = { λ v w h. ap word_input ((pairs_decide v w).0 h) };

    fn hash<H: Hasher>(&self, state: &mut H) {
        self.pairs.as_slice().hash(state);
    }
}
