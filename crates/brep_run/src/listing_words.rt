//! The words of `list`, `walk` and `gen`.
ghost use Rattle.std.specs.Prelude.{◌≡◌, ◌≤◌, IfSome};
ghost use Rattle.brep_run.specs.CommandLine as words;
ghost use Rattle.brep_run.specs.CommandLine.{gen_of_names, list_of_names, may_make, walk_of_names, IsCommandLine};
ghost use Rattle.brep_tokens.specs.Forms.{number_of};

use crate::command_line::{CommandLine, may_be_copied};
use brep_desk::NameText;
use brep_tokens::number;
use orientation::{Kind, kind_of_name};
use shape_listing::Listing;

/// The greatest number of occurrences that are listed.
const MOST_LISTED: u64 = 1_000_000;

/// The greatest number of levels of a file that is made.
const MOST_LEVELS: u64 = 200;

/// The kind that a word names; the word `All` names every kind.
fn kind_or_all(word: &str) -> Option<Option<Kind>>
    ensures { result ≡ words.kind_or_all word.now }
{
    if word == "All" {
        return Some(None);
    }
    match kind_of_name(word.as_bytes()) {
        Some(kind) => Some(Some(kind)),
        None => None,
    }
}

/// A kind and a higher one.
fn low_and_high(low: Option<Kind>, high: Option<Kind>) -> Option<Listing>
    ensures { result ≡ words.low_and_high low high }
{
    match low {
        None => None,
        Some(low) => match high {
            None => None,
            Some(high) => {
                if (low as u8) < (high as u8) {
                    Some(Listing::Above { low, high })
                } else {
                    None
                }
            }
        },
    }
}

/// Two names of kinds with a colon between them.
fn kinds_named(word: &[u8]) -> Option<Listing>
    ensures { result ≡ words.kinds_named word.now }
{
    match word {
        [a, b, middle, c, d] => {
            if *middle == b':' {
                low_and_high(kind_of_name(&[*a, *b]), kind_of_name(&[*c, *d]))
            } else {
                None
            }
        }
        _ => None,
    }
}

/// The shapes of a kind, or those of a kind with the ones of a higher kind above them.
fn shapes_named(word: &str) -> Option<Listing>
    ensures { result ≡ words.shapes_named word.now }
{
    match kind_or_all(word) {
        Some(kind) => Some(Listing::Shapes(kind)),
        None => kinds_named(word.as_bytes()),
    }
}

/// The number that a word spells, where it isn't greater.
fn at_most(most: u64, word: &[u8]) -> Option<u64>
    ensures named { result ≡ words.at_most most (number_of word.now) }
    ensures few { IfSome result (λ n. n ≤ most) }
{
    match number(word) {
        Some(n) => { if n <= most { Some(n) } else { None } }
        None => None,
    }
}

/// The first occurrences of a kind.
fn walk_named(kind: &str, count: &[u8]) -> Option<Listing>
    ensures { result ≡ words.walk_named kind.now count.now }
{
    match kind_or_all(kind) {
        None => None,
        Some(kind) => match at_most(MOST_LISTED, count) {
            None => None,
            Some(count) => Some(Listing::Walk {
                kind,
                count: count as u32,
            }),
        },
    }
}

/// A listing from one name to the other, where it is one.
fn lists_to<'a>(source: &'a str, listing: Option<Listing>, target: &'a str) -> CommandLine<'a>
    ensures { IsCommandLine result (words.lists_to source.now listing target.now) }
{
    match listing {
        None => CommandLine::Wrong,
        Some(listing) => {
            if may_be_copied(source, target) {
                CommandLine::Lists {
                    source,
                    listing,
                    target,
                }
            } else {
                CommandLine::Wrong
            }
        }
    }
}

/// The words after `list`.
pub(crate) fn list_line(names: &[NameText]) -> CommandLine<'_>
    ensures { IsCommandLine result (list_of_names names.now) }
{
    match names {
        [] => CommandLine::Wrong,
        [_a] => CommandLine::Wrong,
        [_a, _b] => CommandLine::Wrong,
        [source, kind, target] => {
            lists_to(source.text(), shapes_named(kind.text()), target.text())
        }
        [_a, _b, _c, _d, ..] => CommandLine::Wrong,
    }
}

/// The words after `walk`.
pub(crate) fn walk_line(names: &[NameText]) -> CommandLine<'_>
    ensures { IsCommandLine result (walk_of_names names.now) }
{
    match names {
        [] => CommandLine::Wrong,
        [_a] => CommandLine::Wrong,
        [_a, _b] => CommandLine::Wrong,
        [_a, _b, _c] => CommandLine::Wrong,
        [source, kind, count, target] => lists_to(
            source.text(),
            walk_named(kind.text(), count.text().as_bytes()),
            target.text(),
        ),
        [_a, _b, _c, _d, _e, ..] => CommandLine::Wrong,
    }
}

/// Whether a file may be made by these words: by a seed and a number of levels.
fn may_be_made(seed: &[u8], levels: &[u8]) -> bool
    ensures { result ≡ may_make seed.now levels.now }
{
    number(seed).is_some() && at_most(MOST_LEVELS, levels).is_some()
}

/// The words after `gen`, which isn't built yet.
pub(crate) fn gen_line(names: &[NameText]) -> CommandLine<'_>
    ensures { IsCommandLine result (gen_of_names names.now) }
{
    match names {
        [] => CommandLine::Wrong,
        [_a] => CommandLine::Wrong,
        [_a, _b] => CommandLine::Wrong,
        [seed, levels, _target] => {
            if may_be_made(seed.text().as_bytes(), levels.text().as_bytes()) {
                CommandLine::Later
            } else {
                CommandLine::Wrong
            }
        }
        [_a, _b, _c, _d, ..] => CommandLine::Wrong,
    }
}
