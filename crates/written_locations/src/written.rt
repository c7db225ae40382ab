//! Numbers for the words that are added.
ghost use Rattle.std.specs.Prelude.{◌≡◌, ◌<◌, ◌≤◌, ◌^◌, [], ◌∷◌, length, slice_get, IfOk, OnOk, Some};
ghost use Rattle.written_locations.specs.Added.{further_of, location_number, number_at, word_number};
ghost use Rattle.written_locations.specs.Added.{Adds, AddsWords, Enters, IsAdded, IsNumbering, IsWordAdded};
ghost use Rattle.written_locations.specs.Further.{fixed_number};

use location_table::Locations;
use location_words::{Word, WordId, Words};
use std::alloc::{AllocError, Global};

/// The words of a section's places and those of a table, as they are added one after another: each word that is neither
/// the identity nor one datum gets the next number after the datums when it first occurs.
#[derive(Drop)]
pub struct WrittenLocations<'a> {
    section: &'a Locations,
    table: &'a Words,
    /// The number of each place's word, or 0 before it is added.
    of_places: Vec<usize>,
    /// The number of each word of the table, or 0 before it is added.
    of_words: Vec<usize>,
    /// The further words, behind the identity.
    words: Words,
}

/// The number of a word that takes no record of its own.
fn fixed_number(word: &Word) -> Option<u32>
    ensures { result ≡ fixed_number word.now }
{
    let pairs = word.pairs();
    if pairs.is_empty() {
        return Some(0);
    }
    if pairs.len() == 1 && pairs[0].power == 1 {
        return Some(pairs[0].datum);
    }
    None
}

impl<'a> WrittenLocations<'a> {
    /// No place of the section and no word of the table has been added.
    pub fn new(
        alloc: Global,
        section: &'a Locations,
        table: &'a Words,
    ) -> Result<WrittenLocations<'a>, AllocError>
        ensures numbering { IfOk result IsNumbering }
        ensures section { IfOk result (λ s. s.section.now ≡ section.now) }
        ensures table { IfOk result (λ s. s.table.now ≡ table.now) }
        ensures none { IfOk result (λ s. further_of s ≡ []) }
    {
        let places = section.len() as usize + 1;
        Ok(WrittenLocations {
            section,
            table,
            of_places: vec![in alloc; 0; places]?,
            of_words: vec![in alloc; 0; table.len()]?,
            words: Words::new(alloc)?,
        })
    }

    /// A place is added: its word gets a number, where it has none yet.
    pub fn add(&mut self, place: u32) -> Result<(), AllocError>
        requires numbering { IsNumbering self.old }
        requires place { place ≤ length self.old.section.now }
        ensures { OnOk result (Adds (place ∷ []) self.old self.new) }
    {
        if self.of_places[place as usize] == 0 {
            let section = self.section;
            let number = self.number_for(section.word(place))?;
            self.of_places[place as usize] = number;
        }
        Ok(())
    }

    /// A word of the table is added: it gets a number, where it has none yet.
    pub fn add_word(&mut self, id: WordId) -> Result<(), AllocError>
        requires numbering { IsNumbering self.old }
        requires id { id.0 < length self.old.table.now }
        ensures { OnOk result (AddsWords (id.0 ∷ []) self.old self.new) }
    {
        if self.of_words[id.0] == 0 {
            let table = self.table;
            let number = self.number_for(table.word(id))?;
            self.of_words[id.0] = number;
        }
        Ok(())
    }

    /// The number of a word, which is entered where it is a further word that hasn't occurred yet.
    fn number_for(&mut self, word: &Word) -> Result<usize, AllocError>
        requires { IsNumbering self.old }
        ensures enters { OnOk result (Enters word.now self.old self.new) }
        ensures number { IfOk result (λ n. n ≡ number_at self.new word.now) }
    {
        if let Some(number) = fixed_number(word) {
            return Ok(number as usize);
        }
        let copy = word.clone()?;
        let id = self.words.intern(copy)?;
        // The table that holds the number is in memory, so it is far below the last one.
        let _ = self.words.len();
        Ok(self.section.datums() as usize + id.0)
    }

    /// The number of the word of a place that was added: 0 of the identity, and of a datum with power 1 the datum's.
    pub fn number(&self, place: u32) -> usize
        requires numbering { IsNumbering self.now }
        requires place { place ≤ length self.now.section.now }
        requires added { IsAdded self.now place }
        ensures { result ≡ location_number self.now place }
    {
        self.of_places[place as usize]
    }

    /// The number of a word of the table that was added.
    pub fn number_of(&self, id: WordId) -> usize
        requires numbering { IsNumbering self.now }
        requires id { id.0 < length self.now.table.now }
        requires added { IsWordAdded self.now id.0 }
        ensures { result ≡ word_number self.now id.0 }
    {
        self.of_words[id.0]
    }

    /// How many further words there are.
    pub fn len(&self) -> usize
        requires { IsNumbering self.now }
        ensures len { result ≡ length (further_of self.now) }
        ensures small { result < 2 ^ 57 }
    {
        self.words.len() - 1
    }

    /// A further word, counted from 0.
    pub fn further(&self, i: usize) -> &Word
        requires numbering { IsNumbering self.now }
        requires within { i < length (further_of self.now) }
        ensures { slice_get (further_of self.now) i ≡ Some result.now }
    {
        // The table is in memory, so its numbers are far below the last one.
        let _ = self.words.len();
        self.words.word(WordId(i + 1))
    }

    /// The section whose places are added.
    pub fn section(&self) -> &'a Locations
        ensures { result.now ≡ self.now.section.now }
    {
        self.section
    }
}
