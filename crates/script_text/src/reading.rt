//! What the words of a line say.
ghost use Rattle.std.specs.Prelude.{◌≡◌, IfOk, MatchOption, None, Some, [], map, nat_eq};
ghost use Rattle.std.specs.List.{list_all};
ghost use Rattle.std.specs.HashSet.{IsFromIterResult};
ghost use Rattle.std.specs.Option.{option_and_then};
ghost use Rattle.script_text.specs.Reading.{LeavesWords, ReadsFront, after_word, alone, are_distinct, are_named};
ghost use Rattle.script_text.specs.Reading.{are_sewn, is_bare, kind_in, may_be_side, mention_in, mention_of};
ghost use Rattle.script_text.specs.Reading.{mentions_from, output_in, stop_in};
ghost use Rattle.script_text.specs.Reading.{merge_of, number_after, number_in, phrase_of, removal_in, replacement_in};
ghost use Rattle.script_text.specs.Reading.{sewing_of, target_in, verb_of};
ghost use Rattle.script_text.specs.Words.{is_word, words_of};

use crate::line_words::first_word;
use crate::phrase::{Mention, Mentions, Phrase};
use brep_tokens::number;
use orientation::{Kind, Turn, kind_of_name, of_sign};
use std::alloc::{AllocError, Global};
use std::collections::HashSet;

/// The first word of a line that isn't nothing.
#[derive(Clone, Copy)]
pub(crate) enum Verb {
    Replace,
    Remove,
    Merge,
    Sew,
    Apply,
    Undo,
    Until,
    Prune,
    Output,
}

fn is(word: &[u8], text: &[u8]) -> bool
    ensures { result ≡ is_word word.now text.now }
{
    word == text
}

fn verb_named(word: &[u8]) -> Option<Verb>
    ensures { result ≡ verb_of word.now }
{
    if is(word, b"replace") {
        Some(Verb::Replace)
    } else if is(word, b"remove") {
        Some(Verb::Remove)
    } else if is(word, b"merge") {
        Some(Verb::Merge)
    } else if is(word, b"sew") {
        Some(Verb::Sew)
    } else if is(word, b"apply") {
        Some(Verb::Apply)
    } else if is(word, b"undo") {
        Some(Verb::Undo)
    } else if is(word, b"until") {
        Some(Verb::Until)
    } else if is(word, b"prune") {
        Some(Verb::Prune)
    } else if is(word, b"output") {
        Some(Verb::Output)
    } else {
        None
    }
}

fn mention(word: &[u8]) -> Option<Mention>
    ensures { result ≡ mention_of word.now }
{
    match word {
        [] => None,
        [b, rest @ ..] => match of_sign(*b) {
            None => match number(word) {
                None => None,
                Some(number) => Some(Mention { sign: None, number }),
            },
            Some(turn) => match number(rest) {
                None => None,
                Some(number) => Some(Mention {
                    sign: Some(turn),
                    number,
                }),
            },
        },
    }
}

fn first_mention(line: &[u8]) -> Option<(Mention, &[u8])>
    ensures { ReadsFront (mention_in (words_of line.now)) result }
{
    match first_word(line) {
        None => None,
        Some((word, rest)) => match mention(word) {
            None => None,
            Some(mention) => Some((mention, rest)),
        },
    }
}

fn first_number(line: &[u8]) -> Option<(Option<u64>, &[u8])>
    ensures { ReadsFront (number_in (words_of line.now)) result }
{
    match first_word(line) {
        None => None,
        Some((word, rest)) => match number(word) {
            None => None,
            Some(number) => Some((Some(number), rest)),
        },
    }
}

/// Perhaps the word `key` and a number, and what follows them.
fn number_behind<'a>(key: &[u8], line: &'a [u8]) -> Option<(Option<u64>, &'a [u8])>
    ensures { ReadsFront (number_after key.now (words_of line.now)) result }
{
    match first_word(line) {
        None => Some((None, line)),
        Some((word, rest)) => if is(word, key) {
            first_number(rest)
        } else {
            Some((None, line))
        },
    }
}

/// What follows the word `key`.
fn behind<'a>(key: &[u8], line: &'a [u8]) -> Option<&'a [u8]>
    ensures { LeavesWords (after_word key.now (words_of line.now)) result }
{
    match first_word(line) {
        None => None,
        Some((word, rest)) => if is(word, key) { Some(rest) } else { None },
    }
}

/// The phrase, where no words follow it.
fn ended(phrase: Phrase, line: &[u8]) -> Option<Phrase>
    ensures { result ≡ alone phrase (words_of line.now) }
{
    match first_word(line) {
        None => Some(phrase),
        Some(_) => None,
    }
}

fn removal(line: &[u8]) -> Option<Phrase>
    ensures { result ≡ removal_in (words_of line.now) }
{
    let (source, rest) = first_mention(line)?;
    let (place, rest) = number_behind(b"at", rest)?;
    ended(Phrase::Remove { source, place }, rest)
}

fn first_kind(line: &[u8]) -> Option<(Kind, &[u8])>
    ensures { ReadsFront (kind_in (words_of line.now)) result }
{
    match first_word(line) {
        None => None,
        Some((word, rest)) => match kind_of_name(word) {
            None => None,
            Some(kind) => Some((kind, rest)),
        },
    }
}

fn stop(line: &[u8]) -> Option<Phrase>
    ensures { result ≡ stop_in (words_of line.now) }
{
    let (kind, rest) = first_kind(line)?;
    ended(Phrase::Until(kind), rest)
}

fn output(line: &[u8]) -> Option<Phrase>
    ensures { result ≡ output_in (words_of line.now) }
{
    let number = behind(b"version", line)?;
    ended(Phrase::OutputFirst, behind(b"1", number)?)
}

fn target(source: Mention, place: Option<u64>, line: &[u8]) -> Option<Phrase>
    ensures { result ≡ target_in source place (words_of line.now) }
{
    let (target, rest) = first_mention(line)?;
    let (location, rest) = number_behind(b"loc", rest)?;
    ended(
        Phrase::Replace {
            source,
            place,
            target,
            location,
        },
        rest,
    )
}

fn replacement(line: &[u8]) -> Option<Phrase>
    ensures { result ≡ replacement_in (words_of line.now) }
{
    let (source, rest) = first_mention(line)?;
    let (place, rest) = number_behind(b"at", rest)?;
    target(source, place, behind(b"by", rest)?)
}

/// All words of a line as mentions.
fn mentions(alloc: Global, line: &[u8]) -> Result<Option<Mentions>, AllocError>
    ensures { IfOk result (λ ms. ms ≡ mentions_from [] (words_of line.now)) }
{
    let mut all = Mentions::new(alloc);
    let mut left = line;
    'words: while let Some((word, rest)) = first_word(left) {
        match mention(word) {
            None => return Ok(None),
            Some(mention) => all.push(mention)?,
        }
        left = rest;
    }
    Ok(Some(all))
}

fn bare(mention: &Mention) -> bool
    ensures { result ≡ is_bare mention.now }
{
    mention.sign.is_none()
}

fn all_bare(mentions: &[Mention]) -> bool
    ensures { result ≡ list_all is_bare mentions.now }
{
    mentions.iter().all(|m| bare(m))
}

fn side(sign: Option<Turn>) -> bool
    ensures { result ≡ may_be_side sign }
{
    match sign {
        None | Some(Turn::Forward) | Some(Turn::Reversed) => true,
        Some(Turn::Internal) | Some(Turn::External) => false,
    }
}

fn all_sides(mentions: &[Mention]) -> bool
    ensures { result ≡ list_all (λ m. may_be_side m.sign) mentions.now }
{
    mentions.iter().all(|m| side(m.sign))
}

fn sewn(mentions: &[Mention]) -> bool
    ensures { result ≡ are_sewn mentions.now }
{
    match mentions {
        [] => true,
        [first, others @ ..] => bare(first) && all_sides(others),
    }
}

/// The set of the numbers.
fn numbers(alloc: Global, mentions: &[Mention]) -> Result<HashSet<u64>, AllocError>
    ensures { IfOk result (IsFromIterResult nat_eq (map (λ m. m.number) mentions.now)) }
{
    mentions.iter().map(|m| m.number).collect(alloc)
}

/// Does no number stand twice? Then their set is as large as their list.
fn distinct(alloc: Global, mentions: &[Mention]) -> Result<bool, AllocError>
    ensures { IfOk result (λ b. b ≡ are_distinct mentions.now) }
{
    let set = numbers(alloc, mentions)?;
    Ok(set.len() == mentions.len())
}

fn named(alloc: Global, mentions: &[Mention]) -> Result<bool, AllocError>
    ensures { IfOk result (λ b. b ≡ are_named mentions.now) }
{
    if mentions.len() < 2 {
        return Ok(false);
    }
    distinct(alloc, mentions)
}

fn merge(alloc: Global, mentions: Mentions) -> Result<Option<Phrase>, AllocError>
    ensures { IfOk result (λ p. p ≡ merge_of mentions) }
{
    if !all_bare(mentions.as_slice()) {
        return Ok(None);
    }
    if named(alloc, mentions.as_slice())? {
        Ok(Some(Phrase::Merge(mentions)))
    } else {
        Ok(None)
    }
}

fn sewing(alloc: Global, mentions: Mentions) -> Result<Option<Phrase>, AllocError>
    ensures { IfOk result (λ p. p ≡ sewing_of mentions) }
{
    if !sewn(mentions.as_slice()) {
        return Ok(None);
    }
    if named(alloc, mentions.as_slice())? {
        Ok(Some(Phrase::Sew(mentions)))
    } else {
        Ok(None)
    }
}

fn merging(alloc: Global, line: &[u8]) -> Result<Option<Phrase>, AllocError>
    ensures { IfOk result (λ p. p ≡ option_and_then merge_of (mentions_from [] (words_of line.now))) }
{
    match mentions(alloc, line)? {
        None => Ok(None),
        Some(mentions) => merge(alloc, mentions),
    }
}

fn sewing_line(alloc: Global, line: &[u8]) -> Result<Option<Phrase>, AllocError>
    ensures { IfOk result (λ p. p ≡ option_and_then sewing_of (mentions_from [] (words_of line.now))) }
{
    match mentions(alloc, line)? {
        None => Ok(None),
        Some(mentions) => sewing(alloc, mentions),
    }
}

/// The phrase that a line spells.
#[tactic(auto, unfolding(crate::specs::Reading::phrase_of))]
pub(crate) fn phrase(alloc: Global, line: &[u8]) -> Result<Option<Phrase>, AllocError>
    ensures { IfOk result (λ p. p ≡ phrase_of (words_of line.now)) }
{
    match first_word(line) {
        None => Ok(None),
        Some((word, rest)) => match verb_named(word) {
            None => Ok(None),
            Some(Verb::Replace) => Ok(replacement(rest)),
            Some(Verb::Remove) => Ok(removal(rest)),
            Some(Verb::Merge) => merging(alloc, rest),
            Some(Verb::Sew) => sewing_line(alloc, rest),
            Some(Verb::Apply) => Ok(ended(Phrase::Apply, rest)),
            Some(Verb::Undo) => Ok(ended(Phrase::Undo, rest)),
            Some(Verb::Until) => Ok(stop(rest)),
            Some(Verb::Prune) => Ok(ended(Phrase::Prune, rest)),
            Some(Verb::Output) => Ok(output(rest)),
        },
    }
}
