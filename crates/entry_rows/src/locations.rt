//! Rows of locations: the words of all places, and the tokens that the entries are spelled by. The offset of a token is
//! that of its first byte in the text, whose words have one space between them.
ghost use Rattle.std.specs.Prelude.{◌≤◌, ◌<◌, IsTrue, length};
ghost use Rattle.location_table.specs.Held.{most_entries};
ghost use Rattle.location_table.specs.Spell.{CanSpellLocation};

use crate::reading::{Stop, token};
use crate::saying::{add, add_number, add_texts, add_token, counted, short, stopped};
use brep_tokens::{Decimals, Progress};
use location_table::{Factor, Factors, LocationEntry, LocationReader, Locations, LocationsReader};
use row_parts::Row;
use std::alloc::{AllocError, Global};

/// The answer to a row of this module.
pub fn answer(alloc: Global, row: &Row<'_>, text: &str) -> Result<Option<String>, AllocError> {
    let due = row.first.unwrap_or(0);
    let said = match row.word {
        "locations" => section_said(alloc, due, text, Asked::Words)?,
        "last-location" => section_said(alloc, due, text, Asked::Last)?,
        "datums" => section_said(alloc, due, text, Asked::Datums)?,
        "spelled-locations" => section_said(alloc, due, text, Asked::Tokens)?,
        "added-locations" => added_said(alloc, text)?,
        "factors" => factors_said(alloc, text)?,
        _ => return Ok(None),
    };
    Ok(Some(said))
}

/// What is asked of a section.
#[derive(Clone, Copy)]
enum Asked {
    Words,
    Last,
    Datums,
    Tokens,
}

/// The section of so many entries.
fn read(alloc: Global, due: u64, text: &str) -> Result<Locations, Stop> {
    if due == 0 || due > 10_000 {
        return Err(Stop::NoneDue);
    }
    let mut reader = LocationsReader::new(alloc, due);
    let mut offset = 0u64;
    for word in text.split(' ') {
        let token = token(offset, word)?;
        offset = offset.wrapping_add(word.len() as u64).wrapping_add(1);
        match reader.take(&token) {
            Ok(Progress::More) => {}
            Ok(Progress::Whole) => return Ok(reader.done()),
            Err(stop) => return Err(Stop::from(stop)),
        }
    }
    Err(Stop::More)
}

/// What is told of a section, or why there is none.
fn section_said(alloc: Global, due: u64, text: &str, asked: Asked) -> Result<String, AllocError> {
    match read(alloc, due, text) {
        Err(stop) => stopped(alloc, &stop),
        Ok(section) => match asked {
            Asked::Words => words(alloc, &section),
            Asked::Last => last(alloc, &section),
            Asked::Datums => datums(alloc, &section),
            Asked::Tokens => spelled(alloc, &section),
        },
    }
}

/// Appends the pairs of a place, each as `datum^power`, and a mark.
fn add_place(
    said: &mut String,
    alloc: Global,
    section: &Locations,
    k: u32,
) -> Result<(), AllocError>
    requires { k ≤ length section.now }
{
    for pair in section.word(k).pairs() {
        add(
            said,
            format!(in alloc; "{}^{}", pair.datum, pair.power)?.as_str(),
        )?;
    }
    add(said, ";")
}

/// The words of all places, from the place 0.
fn words(alloc: Global, section: &Locations) -> Result<String, AllocError> {
    let mut said = String::new(alloc);
    for k in 0..=u64::from(section.len()) {
        add_place(&mut said, alloc, section, k as u32)?;
    }
    Ok(said)
}

/// How many places there are, and how many pairs the last word has.
fn last(alloc: Global, section: &Locations) -> Result<String, AllocError> {
    let mut said = String::new(alloc);
    let last = section.len();
    add_number(&mut said, u64::from(last))?;
    add_number(&mut said, section.word(last).pairs().len() as u64)?;
    Ok(said)
}

/// The decimals of each datum.
fn datums(alloc: Global, section: &Locations) -> Result<String, AllocError> {
    let mut said = counted(alloc, u64::from(section.datums()))?;
    for d in 0..section.datums() {
        add_texts(&mut said, section.datum(d + 1))?;
        said.push_str(";")?;
    }
    Ok(said)
}

/// Fits each decimal of an entry a token?
fn can_spell(entry: &LocationEntry) -> bool
    ensures { IsTrue result → CanSpellLocation entry.now }
{
    match entry {
        LocationEntry::Datum(texts) => short(texts),
        LocationEntry::Product(_) => true,
    }
}

/// Appends the tokens of an entry.
fn add_entry(said: &mut String, entry: &LocationEntry) -> Result<(), AllocError> {
    if !can_spell(entry) {
        return add(said, "too long");
    }
    for token in entry.spell() {
        add_token(said, &token)?;
    }
    Ok(())
}

/// The tokens of all entries.
fn spelled(alloc: Global, section: &Locations) -> Result<String, AllocError> {
    let mut said = String::new(alloc);
    for entry in section.as_slice() {
        add_entry(&mut said, entry)?;
    }
    Ok(said)
}

/// Adds a datum of one decimal, for a word `1`; a product of no factor, for any other word.
fn add_made(section: &mut Locations, alloc: Global, word: &str) -> Result<(), AllocError>
    requires { length section.old < most_entries }
{
    if word == "1" {
        let mut texts = Decimals::new(alloc);
        texts.push(b"1")?;
        section.add(LocationEntry::Datum(texts))
    } else {
        section.add(LocationEntry::Product(Factors::new(alloc)))
    }
}

/// A section to which an entry was added for each word.
fn added(alloc: Global, text: &str) -> Result<Locations, AllocError> {
    let mut section = Locations::new(alloc);
    for word in text.split_whitespace() {
        if section.len() < 10_000 {
            add_made(&mut section, alloc, word)?;
        }
    }
    Ok(section)
}

/// Does an entry behind this section go on behind its first token `2`?
fn begins_a_product(alloc: Global, section: &Locations) -> Result<bool, Stop> {
    let mut reader = LocationReader::new(alloc);
    Ok(reader.take(&token(0, "2")?, section)? == Progress::More)
}

/// The words of a section that was added entry by entry, and what an entry behind it does.
fn added_said(alloc: Global, text: &str) -> Result<String, AllocError> {
    let section = added(alloc, text)?;
    let mut said = words(alloc, &section)?;
    match begins_a_product(alloc, &section) {
        Ok(true) => add(&mut said, "a product begins")?,
        _ => add(&mut said, "no product begins")?,
    }
    Ok(said)
}

/// The factors of a text, each a place and a power with `^` between.
fn factors_of(alloc: Global, text: &str) -> Result<Factors, AllocError> {
    let mut factors = Factors::from_vec(Vec::new(alloc));
    for word in text.split_whitespace() {
        if let Some((place, power)) = word.split_once('^') {
            factors.push(Factor {
                place: place.parse::<u32>().unwrap_or(0),
                power: power.parse::<i64>().unwrap_or(0),
            })?;
        }
    }
    Ok(factors)
}

/// How many factors a list has, and each at its place, up to the first place that has none.
fn factors_said(alloc: Global, text: &str) -> Result<String, AllocError> {
    let factors = factors_of(alloc, text)?;
    if factors.is_empty() {
        return String::from_str(alloc, "empty");
    }
    let mut said = counted(alloc, factors.len() as u64)?;
    for at in 0..=factors.len() {
        match factors.get(at) {
            Some(Factor { place, power }) => {
                add(&mut said, format!(in alloc; "{place}^{power};")?.as_str())?;
            }
            None => add(&mut said, "none")?,
        }
    }
    Ok(said)
}
