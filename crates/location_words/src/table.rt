//! The table that gives words their numbers.
ghost use Rattle.std.specs.Prelude.{◌≡◌, ◌≢◌, ◌<◌, ◌^◌, ℕ, List, [], ◌∷◌, Some, Contains};
ghost use Rattle.std.specs.Prelude.{length, slice_get, IfNone, IfOk, IfSome, IsOk, OnErr, OnOk};
ghost use Rattle.location_words.specs.declared.pair.Pair.{Pair};
ghost use Rattle.location_words.specs.Pairs.{IsHeldWord};
ghost use Rattle.location_words.specs.Tables.{entered, IsTable, TellsApart};

use crate::Word;
use indexmap::IndexSet;
use std::alloc::{AllocError, Global};
use std::marker::Model;

/// The number of a word in a table, counted from 0.
#[derive(Clone, Copy, Debug, PartialEq, Eq, Hash)]
pub struct WordId(pub usize);

/// A table of words, in which equal words have one number and different words different ones. The identity has the
/// number 0.
#[derive(Drop)]
pub struct Words {
    words: IndexSet<Word>,
}

impl Model for Words {
    ghost use Rattle.std.specs.Prelude.{List};
    ghost use Rattle.location_words.specs.declared.pair.Pair.{Pair};
    ghost use Rattle.location_words.specs.Tables.{IsTable};

    ghost Value = { List (List Pair) };

    ghost view = { λ t. t.words.keys };

    ghost invariant = { λ t. IsTable t.words.keys };
}

impl Words {
    /// The table that holds the identity alone.
    pub fn new(alloc: Global) -> Result<Words, AllocError>
        ensures identity { IfOk result (λ words. words ≡ [] ∷ []) }
        ensures table { IfOk result (λ words. IsTable words) }
    {
        let mut words = IndexSet::new(alloc);
        words.insert(Word::identity(alloc))?;
        Ok(Words { words })
    }

    /// The number of a word, which is entered where the table doesn't hold it yet. Only then memory may be wanting.
    pub fn intern(&mut self, w: Word) -> Result<WordId, AllocError>
        ensures held { IfOk result (λ id. slice_get self.new id.0 ≡ Some w) }
        ensures same { IfOk result (λ id. TellsApart self.new w id.0) }
        ensures entered { OnOk result (self.new ≡ entered self.old w) }
        ensures err { OnErr result (self.new ≡ self.old) }
        ensures known { Contains self.old w → IsOk result }
        ensures kept { (i : ℕ) (v : List Pair) → slice_get self.old i ≡ Some v → slice_get self.new i ≡ Some v }
        ensures table { IsTable self.new }
    {
        // What every word keeps holds of the one that is entered.
        let _ = &w.pairs;
        let (index, _) = self.words.insert_full(w)?;
        Ok(WordId(index))
    }

    /// The word of a number that the table holds.
    pub fn word(&self, id: WordId) -> &Word
        requires { id.0 < length self.now }
        ensures word { slice_get self.now id.0 ≡ Some result.now }
        ensures held { IsHeldWord result.now }
        ensures table { IsTable self.now }
    {
        &self.words[id.0]
    }

    /// The number of a word, and none where the table doesn't hold it.
    pub fn number(&self, w: &Word) -> Option<WordId>
        ensures found { IfSome result (λ id. slice_get self.now id.0 ≡ Some w.now) }
        ensures none { IfNone result ((i : ℕ) → slice_get self.now i ≢ Some w.now) }
        ensures table { IsTable self.now }
    {
        let index = self.words.get_index_of(w)?;
        Some(WordId(index))
    }

    /// How many words the table holds, the identity among them.
    pub fn len(&self) -> usize
        ensures len { result ≡ length self.now }
        ensures small { result < 2 ^ 57 }
        ensures table { IsTable self.now }
    {
        self.words.as_slice().len()
    }
}
