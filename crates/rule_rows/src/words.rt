//! Rows of words and of their numbers.
use location_words::{Word, WordFault, WordId, Words, inverse, mul, power, product};
use std::alloc::Global;
use tree_texts::{
    Missed, counted, cut, cut_if, join, outcome, said, signed, small, word, word_said,
};

/// The inverse of a word.
fn inverse_of(w: &Word) -> Result<Word, WordFault> {
    match inverse(w) {
        Ok(turned) => Ok(turned),
        Err(_) => Err(WordFault::NoMemory),
    }
}

/// The product of the inverse of a word, the word and another.
fn around(alloc: Global, w: &Word, other: &Word) -> Result<Word, WordFault> {
    let turned = inverse_of(w)?;
    product(alloc, &[&turned, w, other])
}

/// `is PAIRS` or `inverse PAIRS`.
pub(crate) fn of_one(alloc: Global, what: &str, row: &str) -> Result<String, Missed> {
    match word(alloc, row)? {
        Ok(w) => if what == "inverse" {
            outcome(alloc, inverse_of(&w))
        } else {
            word_said(alloc, &w)
        },
        Err(fault) => outcome(alloc, Err(fault)),
    }
}

/// What comes of two words.
fn joined(alloc: Global, what: &str, first: &Word, second: &Word) -> Result<Word, WordFault> {
    match what {
        "mul" => mul(first, second),
        "product" => product(alloc, &[first, second]),
        _ => around(alloc, first, second),
    }
}

/// `mul OUTER , INNER`, `product OUTER , INNER` or `around PLACE , OTHER`.
pub(crate) fn of_two(alloc: Global, what: &str, row: &str) -> Result<String, Missed> {
    let (first, second) = cut(row, " , ")?;
    let Ok(w) = word(alloc, first)? else {
        return Err(Missed::Unclear);
    };
    match word(alloc, second)? {
        Ok(other) => outcome(alloc, joined(alloc, what, &w, &other)),
        Err(_) => Err(Missed::Unclear),
    }
}

/// `power WORD , P`: a word of more than one pair takes at most 1,024 factors.
pub(crate) fn of_power(alloc: Global, row: &str) -> Result<String, Missed> {
    let (first, second) = cut(row, " , ")?;
    let p = signed(second)?;
    let Ok(w) = word(alloc, first)? else {
        return Err(Missed::Unclear);
    };
    if w.pairs().len() <= 1 || (-1_024..=1_024).contains(&p) {
        return outcome(alloc, power(&w, p));
    }
    Err(Missed::Unclear)
}

/// The number of a word that is entered.
fn entered(alloc: Global, words: &mut Words, text: &str) -> Result<String, Missed> {
    match word(alloc, text)? {
        Ok(w) => {
            let id = words.intern(w)?;
            counted(alloc, id.0 as u64)
        }
        Err(_) => Err(Missed::Unclear),
    }
}

/// The number of a word, if it has one.
fn found(alloc: Global, words: &Words, text: &str) -> Result<String, Missed> {
    match word(alloc, text)? {
        Ok(w) => match words.number(&w) {
            Some(id) => counted(alloc, id.0 as u64),
            None => said(alloc, "none"),
        },
        Err(_) => Err(Missed::Unclear),
    }
}

/// The word of a number, if there is one.
fn held(alloc: Global, words: &Words, text: &str) -> Result<String, Missed> {
    let number = small(text)? as usize;
    if number < words.len() {
        return word_said(alloc, words.word(WordId(number)));
    }
    said(alloc, "none")
}

/// What is done with a table of words.
fn done(alloc: Global, words: &mut Words, part: &str) -> Result<String, Missed> {
    let (what, rest) = cut_if(part, " ");
    let text = rest.unwrap_or("");
    match what {
        "enter" => entered(alloc, words, text),
        "find" => found(alloc, words, text),
        "word" => held(alloc, words, text),
        "count" => counted(alloc, words.len() as u64),
        _ => Err(Missed::Unclear),
    }
}

/// What is done with a new table of words, one after another: `enter WORD`, `find WORD`, `word NUMBER`, `count`.
pub(crate) fn of_numbers(alloc: Global, row: &str) -> Result<String, Missed> {
    let mut words = Words::new(alloc)?;
    let mut answers = String::new(alloc);
    for part in row.split(" ; ") {
        let answer = done(alloc, &mut words, part)?;
        join(&mut answers, " ; ", answer.as_str())?;
    }
    Ok(answers)
}
