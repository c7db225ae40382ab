//! The command line: which command the words spell, and the names that it reads and writes.
ghost use Rattle.std.specs.Prelude.{◌≡◌};
ghost use Rattle.brep_run.specs.CommandLine.{IsCommandLine, command_line_of, copy_of_names};
ghost use Rattle.brep_run.specs.CommandLine.{may_copy, may_rewrite, other_line, rewrite_of_names};

use crate::listing_words::{gen_line, list_line, walk_line};
use brep_desk::NameText;
use shape_listing::Listing;

/// A command with its names, which are borrowed from the words.
#[derive(Clone, Copy)]
pub(crate) enum CommandLine<'a> {
    Copy {
        source: &'a str,
        target: &'a str,
    },
    Rewrite {
        source: &'a str,
        script: &'a str,
        target: &'a str,
        history: &'a str,
    },
    Lists {
        source: &'a str,
        listing: Listing,
        target: &'a str,
    },
    Later,
    Wrong,
}

pub(crate) fn may_be_copied(source: &str, target: &str) -> bool
    ensures { result ≡ may_copy source.now target.now }
{
    source != target || source == "-"
}

fn may_be_rewritten(source: &str, script: &str, target: &str, history: &str) -> bool
    ensures { result ≡ may_rewrite source.now script.now target.now history.now }
{
    (source != script && target != history)
        && ((may_be_copied(source, target) && may_be_copied(source, history))
            && (may_be_copied(script, target) && may_be_copied(script, history)))
}

fn copy_line(names: &[NameText]) -> CommandLine<'_>
    ensures { IsCommandLine result (copy_of_names names.now) }
{
    match names {
        [] => CommandLine::Wrong,
        [_a] => CommandLine::Wrong,
        [source, target] => {
            if may_be_copied(source.text(), target.text()) {
                CommandLine::Copy {
                    source: source.text(),
                    target: target.text(),
                }
            } else {
                CommandLine::Wrong
            }
        }
        [_a, _b, _c, ..] => CommandLine::Wrong,
    }
}

fn rewrite_line(names: &[NameText]) -> CommandLine<'_>
    ensures { IsCommandLine result (rewrite_of_names names.now) }
{
    match names {
        [] => CommandLine::Wrong,
        [_a] => CommandLine::Wrong,
        [_a, _b] => CommandLine::Wrong,
        [_a, _b, _c] => CommandLine::Wrong,
        [source, script, target, history] => {
            if may_be_rewritten(source.text(), script.text(), target.text(), history.text()) {
                CommandLine::Rewrite {
                    source: source.text(),
                    script: script.text(),
                    target: target.text(),
                    history: history.text(),
                }
            } else {
                CommandLine::Wrong
            }
        }
        [_a, _b, _c, _d, _e, ..] => CommandLine::Wrong,
    }
}

/// The command line of a word that is neither `copy` nor `rewrite`.
fn line_of_others<'a>(word: &str, rest: &'a [NameText]) -> CommandLine<'a>
    ensures { IsCommandLine result (other_line word.now rest.now) }
{
    if word == "list" {
        list_line(rest)
    } else if word == "walk" {
        walk_line(rest)
    } else if word == "gen" {
        gen_line(rest)
    } else {
        CommandLine::Wrong
    }
}

/// The command line that the words spell. No words at all are the same as `copy - -`.
#[tactic(auto, unfolding(crate::specs::CommandLine::command_line_of))]
pub(crate) fn command_line(words: &[NameText]) -> CommandLine<'_>
    ensures { IsCommandLine result (command_line_of words.now) }
{
    match words {
        [] => CommandLine::Copy {
            source: "-",
            target: "-",
        },
        [word, rest @ ..] => {
            if word.text() == "copy" {
                copy_line(rest)
            } else if word.text() == "rewrite" {
                rewrite_line(rest)
            } else {
                line_of_others(word.text(), rest)
            }
        }
    }
}
