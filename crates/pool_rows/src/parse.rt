//! Words of rows: numbers, kinds, turns and products of datums.

use location_words::{Pair, Word, WordId, Words};
use orientation::{Kind, Turn, kind_of_name, of_sign, sign};
use std::alloc::{AllocError, AllocFailed, Global};
use std::fmt::Write;

/// Why a row has no answer of its own.
#[derive(Drop)]
pub(crate) enum Stop {
    /// It can't be understood.
    Unreadable,
    /// Want of memory.
    NoMemory,
}

impl From<AllocError> for Stop {
    fn from(_: AllocError) -> Stop {
        Stop::NoMemory
    }
}

impl<T: Drop> From<AllocFailed<T>> for Stop {
    fn from(_: AllocFailed<T>) -> Stop {
        Stop::NoMemory
    }
}

/// The two sides of the first of a mark, without the blanks round them, and nothing after it where it isn't there.
pub(crate) fn halves<'a>(text: &'a str, mark: char) -> (&'a str, &'a str) {
    match text.split_once(mark) {
        Some((first, second)) => (first.trim(), second.trim()),
        None => (text.trim(), ""),
    }
}

/// A decimal number.
pub(crate) fn number(text: &str) -> Result<u32, Stop> {
    match text.parse::<u32>() {
        Ok(n) => Ok(n),
        Err(_) => Err(Stop::Unreadable),
    }
}

/// A kind by its two letters.
pub(crate) fn kind(text: &str) -> Result<Kind, Stop> {
    match kind_of_name(text.as_bytes()) {
        Some(kind) => Ok(kind),
        None => Err(Stop::Unreadable),
    }
}

/// A kind, or none for `All`.
pub(crate) fn kind_or_all(text: &str) -> Result<Option<Kind>, Stop> {
    if text == "All" {
        return Ok(None);
    }
    Ok(Some(kind(text)?))
}

/// The sign before a name, if it has one.
pub(crate) fn turn_of(text: &str) -> Option<Turn> {
    let first = text.as_bytes().first()?;
    of_sign(*first)
}

/// The name after the sign, if there is one.
pub(crate) fn unsigned(text: &str) -> &str {
    if turn_of(text).is_none() {
        return text;
    }
    match text.get(1..) {
        Some(rest) => rest,
        None => "",
    }
}

/// A power of a datum, as `b^-2`; the datums are the small letters.
fn pair_of(text: &str) -> Result<Pair, Stop> {
    let (letter, exponent) = halves(text, '^');
    let bytes = letter.as_bytes();
    if bytes.len() != 1 || !bytes[0].is_ascii_lowercase() {
        return Err(Stop::Unreadable);
    }
    let datum = u32::from(bytes[0]).wrapping_sub(96);
    if exponent.is_empty() {
        return Ok(Pair { datum, power: 1 });
    }
    match exponent.parse::<i64>() {
        Ok(power) => Ok(Pair { datum, power }),
        Err(_) => Err(Stop::Unreadable),
    }
}

/// The powers of a product, innermost first.
fn factors(alloc: Global, text: &str) -> Result<Vec<Pair>, Stop> {
    let mut pairs = Vec::new(alloc);
    for factor in text.split('.') {
        pairs.push(pair_of(factor)?)?;
    }
    Ok(pairs)
}

/// A list so many times over.
fn repeated(alloc: Global, once: &[Pair], times: u32) -> Result<Vec<Pair>, Stop> {
    let mut pairs = Vec::new(alloc);
    for _ in 0..times {
        pairs.extend_from_slice(once)?;
    }
    Ok(pairs)
}

/// The word of a product, as `a.b^-2`, innermost factor first; `a.b*9` is `a.b` nine times over, and `1` the identity.
pub(crate) fn word_of(alloc: Global, text: &str) -> Result<Word, Stop> {
    if text.is_empty() || text == "1" {
        return Ok(Word::identity(alloc));
    }
    let (product, times) = halves(text, '*');
    let once = factors(alloc, product)?;
    let many = if times.is_empty() { 1 } else { number(times)? };
    let pairs = repeated(alloc, once.as_slice(), many)?;
    match Word::of(alloc, pairs.as_slice()) {
        Ok(word) => Ok(word),
        Err(_) => Err(Stop::Unreadable),
    }
}

/// Enters the words that stand behind `@` in a text.
fn enter_words(alloc: Global, words: &mut Words, text: &str) -> Result<(), Stop> {
    for part in text.split_whitespace() {
        let (_, word) = halves(part.trim_end_matches(';'), '@');
        if !word.is_empty() {
            words.intern(word_of(alloc, word)?)?;
        }
    }
    Ok(())
}

/// The table of the words that stand in the statements of a pool and in a row.
pub(crate) fn words_of(alloc: Global, held: &str, row: &str) -> Result<Words, Stop> {
    let mut words = Words::new(alloc)?;
    enter_words(alloc, &mut words, held)?;
    enter_words(alloc, &mut words, row)?;
    Ok(words)
}

/// The number of a word that the table holds.
pub(crate) fn place_of(alloc: Global, words: &Words, text: &str) -> Result<WordId, Stop> {
    match words.number(&word_of(alloc, text)?) {
        Some(id) => Ok(id),
        None => Err(Stop::Unreadable),
    }
}

/// Writes a number.
pub(crate) fn put_number(out: &mut String, n: u64) -> Result<(), Stop> {
    write!(out, "{n}")?;
    Ok(())
}

/// Writes a power of a datum.
fn put_pair(out: &mut String, pair: Pair) -> Result<(), Stop> {
    let (datum, power) = (pair.datum, pair.power);
    if datum < 1 || datum > 26 {
        return Err(Stop::Unreadable);
    }
    out.push(char::from((datum + 96) as u8))?;
    if power != 1 {
        write!(out, "^{power}")?;
    }
    Ok(())
}

/// Writes the pairs of a word behind `@`, and nothing for the identity.
pub(crate) fn put_pairs(out: &mut String, pairs: &[Pair]) -> Result<(), Stop> {
    let mut mark = "@";
    for pair in pairs {
        out.push_str(mark)?;
        put_pair(out, *pair)?;
        mark = ".";
    }
    Ok(())
}

/// Writes the word of a number behind `@`, and nothing for the identity.
pub(crate) fn put_word(out: &mut String, words: &Words, id: WordId) -> Result<(), Stop> {
    if id.0 >= words.len() {
        return Err(Stop::Unreadable);
    }
    put_pairs(out, words.word(id).pairs())
}

/// Writes the sign of a turn.
pub(crate) fn put_sign(out: &mut String, turn: Turn) -> Result<(), Stop> {
    out.push(char::from(sign(turn)))?;
    Ok(())
}

/// Writes what separates an answer from those before it.
pub(crate) fn put_break(out: &mut String) -> Result<(), Stop> {
    if !out.is_empty() {
        out.push_str("; ")?;
    }
    Ok(())
}
