//! How words stand in rows: `3^2` is the datum 3 to the power 2, the innermost factor comes first.
use crate::reading::{Missed, cut, join, signed, small};
use location_words::{Pair, Word, WordFault};
use std::alloc::Global;

/// A power of a datum.
fn pair(text: &str) -> Result<Pair, Missed> {
    let (datum, power) = cut(text, "^")?;
    Ok(Pair {
        datum: small(datum)?,
        power: signed(power)?,
    })
}

/// The pairs (0, 1), (1, 1), .. up to the datum `n`.
fn ascending(alloc: Global, n: u32) -> Result<Vec<Pair>, Missed> {
    let mut pairs = Vec::new(alloc);
    for datum in 0..n {
        pairs.push(Pair { datum, power: 1 })?;
    }
    Ok(pairs)
}

/// Pairs with a mark between them.
fn listed(alloc: Global, text: &str, mark: &str) -> Result<Vec<Pair>, Missed> {
    let mut pairs = Vec::new(alloc);
    for part in text.split(mark) {
        pairs.push(pair(part)?)?;
    }
    Ok(pairs)
}

/// The pairs of `identity`, of `to 17`, which are those of the datums from 0 to 16, or of a list.
fn pairs(alloc: Global, text: &str, mark: &str) -> Result<Vec<Pair>, Missed> {
    if text == "identity" {
        return Ok(Vec::new(alloc));
    }
    if let Some(n) = text.strip_prefix("to ") {
        return ascending(alloc, small(n)?);
    }
    listed(alloc, text, mark)
}

/// The word of a text, or why it is none.
pub fn word(alloc: Global, text: &str) -> Result<Result<Word, WordFault>, Missed> {
    let pairs = pairs(alloc, text, " ")?;
    Ok(Word::of(alloc, pairs.as_slice()))
}

/// The word of a place in a tree, whose pairs have dots between them.
pub fn place(alloc: Global, text: &str) -> Result<Word, Missed> {
    let pairs = pairs(alloc, text, ".")?;
    match Word::of(alloc, pairs.as_slice()) {
        Ok(word) => Ok(word),
        Err(_) => Err(Missed::Unclear),
    }
}

/// The pairs of a word, with a mark between them.
pub fn pairs_said(alloc: Global, w: &Word, mark: &str) -> Result<String, Missed> {
    let mut text = String::new(alloc);
    for pair in w.pairs() {
        let (datum, power) = (pair.datum, pair.power);
        let one = format!(in alloc; "{datum}^{power}")?;
        join(&mut text, mark, one.as_str())?;
    }
    Ok(text)
}

/// The pairs of a word, or how many there are where there are many.
pub fn word_said(alloc: Global, w: &Word) -> Result<String, Missed> {
    let count = w.pairs().len();
    if count == 0 {
        return Ok(String::from_str(alloc, "identity")?);
    }
    if count > 8 {
        return Ok(format!(in alloc; "{count} pairs")?);
    }
    pairs_said(alloc, w, " ")
}

/// Why a word is refused.
pub fn fault_said(alloc: Global, fault: WordFault) -> Result<String, Missed> {
    match fault {
        WordFault::Power(n) => Ok(format!(in alloc; "power {n}")?),
        WordFault::Pairs(n) => Ok(format!(in alloc; "pairs {n}")?),
        WordFault::NoMemory => Err(Missed::NoMemory),
    }
}

/// A word, or why it is refused.
pub fn outcome(alloc: Global, answer: Result<Word, WordFault>) -> Result<String, Missed> {
    match answer {
        Ok(w) => word_said(alloc, &w),
        Err(fault) => fault_said(alloc, fault),
    }
}
