//! The section `Locations`, with the word of each place.
ghost use Rattle.std.specs.Prelude.{◌≡◌, ◌≤◌, ◌<◌, ◌-◌, ◌↔◌, [], ◌∷◌, ◌++◌, Some, length, slice_get, IfOk, IsTrue};
ghost use Rattle.std.specs.Prelude.{OnErr, OnOk};
ghost use Rattle.location_words.specs.Pairs.{IsHeldWord};
ghost use Rattle.location_table.specs.declared.entry.LocationEntry.TheVariants.{Datum, Product};
ghost use Rattle.location_table.specs.Held.{CanAdd, most_entries};
ghost use Rattle.location_table.specs.Limits.{AreWithin, IsWithin};
ghost use Rattle.location_table.specs.Words.{datum_word, datums_of, with_factor, word_of_factors, word_of_place};
ghost use Rattle.location_table.specs.Words.{words_of};

use crate::entry::{Factor, Factors, LocationEntry};
use crate::limits::factor_onto;
use brep_tokens::Decimals;
use location_words::{Pair, Word};
use std::alloc::{AllocError, Global};
use std::marker::Model;

/// Entries, each with the word of its place.
#[derive(Drop)]
struct Entries {
    entries: Vec<LocationEntry>,
    words: Vec<Word>,
}

impl Entries {
    /// Appends both, or neither.
    fn push(&mut self, entry: LocationEntry, word: Word) -> Result<(), AllocError>
        ensures entries { OnOk result (self.new.entries.items ≡ self.old.entries.items ++ entry ∷ []) }
        ensures words { OnOk result (self.new.words.items ≡ self.old.words.items ++ word ∷ []) }
        ensures entries_stay { OnErr result (self.new.entries.items ≡ self.old.entries.items) }
        ensures words_stay { OnErr result (self.new.words.items ≡ self.old.words.items) }
    {
        match self.words.push(word) {
            Err(_) => Err(AllocError),
            Ok(()) => match self.entries.push(entry) {
                Ok(()) => Ok(()),
                Err(_) => {
                    self.words.pop();
                    Err(AllocError)
                }
            },
        }
    }
}

/// The section `Locations` in its order. Its places are counted from 1; the place 0 is the identity.
#[derive(Drop)]
pub struct Locations {
    identity: Word,
    held: Entries,
    datums: Vec<usize>,
}

impl Model for Locations {
    ghost use Rattle.std.specs.Prelude.{List};
    ghost use Rattle.location_table.specs.declared.entry.LocationEntry.{LocationEntry};
    ghost use Rattle.location_table.specs.Held.{IsSection};

    ghost Value = { List LocationEntry };

    ghost view = { λ s. s.held.entries.items };

    ghost invariant = { λ s. IsSection s.identity s.held.entries.items s.held.words.items s.datums.items };
}

impl Locations {
    /// The empty section.
    pub fn new(alloc: Global) -> Locations
        ensures { result ≡ [] }
    {
        Locations {
            identity: Word::identity(alloc),
            held: Entries {
                entries: Vec::new(alloc),
                words: Vec::new(alloc),
            },
            datums: Vec::new(alloc),
        }
    }

    /// Appends an entry that may stand after the section's, and multiplies out its word.
    pub fn add(&mut self, entry: LocationEntry) -> Result<(), AllocError>
        requires room { length self.old < most_entries }
        requires can { CanAdd self.old entry }
        ensures ok { OnOk result (self.new ≡ self.old ++ entry ∷ []) }
        ensures err { OnErr result (self.new ≡ self.old) }
    {
        match entry {
            LocationEntry::Datum(texts) => self.add_datum(texts),
            LocationEntry::Product(factors) => {
                let word = self.multiplied(&factors)?;
                self.add_product(factors, word)
            }
        }
    }

    /// The word of factors.
    fn multiplied(&self, factors: &Factors) -> Result<Word, AllocError>
        requires { AreWithin (length self.now) (words_of self.now) [] factors.now }
        ensures { IfOk result (λ w. w ≡ word_of_factors (words_of self.now) factors.now) }
    {
        let mut word = Word::identity(*self.held.words.allocator());
        for factor in factors.as_slice() {
            word = self.onto(&word, *factor)?;
        }
        Ok(word)
    }

    /// A word with one more factor.
    fn onto(&self, word: &Word, factor: Factor) -> Result<Word, AllocError>
        requires { IsWithin (length self.now) (words_of self.now) word.now factor }
        ensures { IfOk result (λ w. w ≡ with_factor (words_of self.now) word.now factor) }
    {
        match factor_onto(word, self.word(factor.place), factor.power) {
            Ok(w) => Ok(w),
            Err(_) => Err(AllocError),
        }
    }

    /// Appends a datum.
    pub(crate) fn add_datum(&mut self, texts: Decimals) -> Result<(), AllocError>
        requires { length self.old < most_entries }
        ensures ok { OnOk result (self.new ≡ self.old ++ Datum texts ∷ []) }
        ensures err { OnErr result (self.new ≡ self.old) }
    {
        let place = self.len() as usize;
        let word = datum(*self.datums.allocator(), self.datums() + 1)?;
        append(&mut self.datums, place)?;
        match self.held.push(LocationEntry::Datum(texts), word) {
            Ok(()) => Ok(()),
            Err(e) => {
                self.datums.pop();
                Err(e)
            }
        }
    }

    /// Appends a product whose word is known.
    pub(crate) fn add_product(&mut self, factors: Factors, word: Word) -> Result<(), AllocError>
        requires room { length self.old < most_entries }
        requires word { word ≡ word_of_factors (words_of self.old) factors }
        ensures ok { OnOk result (self.new ≡ self.old ++ Product factors ∷ []) }
        ensures err { OnErr result (self.new ≡ self.old) }
    {
        self.held.push(LocationEntry::Product(factors), word)?;
        Ok(())
    }

    /// The word of a place; that of the place 0 is the identity.
    pub fn word(&self, k: u32) -> &Word
        requires { k ≤ length self.now }
        ensures word { result.now ≡ word_of_place self.now k }
        ensures held { IsHeldWord result.now }
    {
        if k == 0 {
            &self.identity
        } else {
            let word = &self.held.words[k as usize - 1];
            // What every word keeps holds of this one.
            word.pairs();
            word
        }
    }

    /// The decimals of a datum. Datums are numbered from 1 in their order, also where their decimals are the same.
    pub fn datum(&self, d: u32) -> &Decimals
        requires { (1 ≤ d) × (d ≤ length (datums_of self.now)) }
        ensures { slice_get (datums_of self.now) (d - 1) ≡ Some result.now }
    {
        match &self.held.entries[self.datums[d as usize - 1]] {
            LocationEntry::Datum(texts) => texts,
            LocationEntry::Product(_) => unreachable!(),
        }
    }

    /// How many of the entries are datums.
    pub fn datums(&self) -> u32
        ensures { result ≡ length (datums_of self.now) }
    {
        self.datums.len() as u32
    }

    /// How many entries there are.
    pub fn len(&self) -> u32
        ensures len { result ≡ length self.now }
        ensures few { length self.now ≤ most_entries }
    {
        self.held.entries.len() as u32
    }

    /// Whether there are none.
    pub fn is_empty(&self) -> bool
        ensures { IsTrue result ↔ (self.now ≡ []) }
    {
        self.held.entries.is_empty()
    }

    /// The entries, in their order.
    pub fn as_slice(&self) -> &[LocationEntry]
        ensures { result.now ≡ self.now }
    {
        &self.held.entries
    }
}

/// Appends a place.
fn append(places: &mut Vec<usize>, place: usize) -> Result<(), AllocError>
    ensures ok { OnOk result (places.new.items ≡ places.old.items ++ place ∷ []) }
    ensures err { OnErr result (places.new.items ≡ places.old.items) }
{
    places.push(place).map_err(AllocError::from)
}

/// The word of a datum.
fn datum(alloc: Global, number: u32) -> Result<Word, AllocError>
    ensures { IfOk result (λ w. w ≡ datum_word number) }
{
    let pair = Pair {
        datum: number,
        power: 1,
    };
    match Word::of(alloc, &[pair]) {
        Ok(word) => Ok(word),
        Err(_) => Err(AllocError),
    }
}
