//! Rows of turns, kinds and rules.
use orientation::{Kind, Rule, Turn, below, compose, kind_of_name, of_sign, reverse, sign};
use std::alloc::Global;
use tree_texts::{Missed, cut, cut_if, kind, push_kind, said, yes};

/// The turn of a text of one sign.
fn turn(text: &str) -> Option<Turn> {
    match text.as_bytes() {
        [b] => of_sign(*b),
        _ => None,
    }
}

/// A turn by its name.
fn turn_named(name: &str) -> Result<Turn, Missed> {
    match name {
        "forward" => Ok(Turn::Forward),
        "reversed" => Ok(Turn::Reversed),
        "internal" => Ok(Turn::Internal),
        "external" => Ok(Turn::External),
        _ => Err(Missed::Unclear),
    }
}

/// The name of a turn.
fn name_of(turn: Option<Turn>) -> &'static str {
    match turn {
        Some(Turn::Forward) => "forward",
        Some(Turn::Reversed) => "reversed",
        Some(Turn::Internal) => "internal",
        Some(Turn::External) => "external",
        None => "none",
    }
}

/// A turn by its sign, as an answer.
fn signed(alloc: Global, turn: Turn) -> Result<String, Missed> {
    let mut text = String::new(alloc);
    text.push(char::from(sign(turn)))?;
    Ok(text)
}

/// The turn of a sign that has to be one.
fn known(text: &str) -> Result<Turn, Missed> {
    match turn(text) {
        Some(turn) => Ok(turn),
        None => Err(Missed::Unclear),
    }
}

/// What an outer turn makes of an inner one.
fn composed(alloc: Global, both: &str) -> Result<String, Missed> {
    let (outer, inner) = cut(both, " ")?;
    signed(alloc, compose(known(outer)?, known(inner)?))
}

/// `compose OUTER INNER`, `reverse SIGN`, `of SIGN` or `sign NAME`.
pub(crate) fn of_turns(alloc: Global, row: &str) -> Result<String, Missed> {
    let (what, rest) = cut(row, " ")?;
    match what {
        "compose" => composed(alloc, rest),
        "reverse" => signed(alloc, reverse(known(rest)?)),
        "of" => said(alloc, name_of(turn(rest))),
        "sign" => signed(alloc, turn_named(rest)?),
        _ => Err(Missed::Unclear),
    }
}

/// A kind by its word.
fn kind_worded(word: &str) -> Result<Kind, Missed> {
    match word {
        "vertex" => Ok(Kind::Ve),
        "edge" => Ok(Kind::Ed),
        "wire" => Ok(Kind::Wi),
        "face" => Ok(Kind::Fa),
        "shell" => Ok(Kind::Sh),
        "solid" => Ok(Kind::So),
        "compsolid" => Ok(Kind::CS),
        "compound" => Ok(Kind::Co),
        _ => Err(Missed::Unclear),
    }
}

/// The word of a kind.
fn word_of(kind: Kind) -> &'static str {
    match kind {
        Kind::Ve => "vertex",
        Kind::Ed => "edge",
        Kind::Wi => "wire",
        Kind::Fa => "face",
        Kind::Sh => "shell",
        Kind::So => "solid",
        Kind::CS => "compsolid",
        Kind::Co => "compound",
    }
}

/// The two letters of a kind, as an answer.
fn lettered(alloc: Global, kind: Kind) -> Result<String, Missed> {
    let mut text = String::new(alloc);
    push_kind(&mut text, kind)?;
    Ok(text)
}

/// The word of the kind of two letters.
fn worded(alloc: Global, name: &str) -> Result<String, Missed> {
    match kind_of_name(name.as_bytes()) {
        Some(kind) => said(alloc, word_of(kind)),
        None => said(alloc, "none"),
    }
}

/// Whether a shape of the first kind may stand in one of the second.
fn stands_below(alloc: Global, both: &str) -> Result<String, Missed> {
    let (child, parent) = cut(both, " ")?;
    yes(
        alloc,
        below(kind(child.as_bytes())?, kind(parent.as_bytes())?),
    )
}

/// `of LETTERS`, `name WORD` or `below CHILD PARENT`.
pub(crate) fn of_kinds(alloc: Global, row: &str) -> Result<String, Missed> {
    let (what, rest) = cut(row, " ")?;
    match what {
        "of" => worded(alloc, rest),
        "name" => lettered(alloc, kind_worded(rest)?),
        "below" => stands_below(alloc, rest),
        _ => Err(Missed::Unclear),
    }
}

/// The rule `usual`, `until KIND` or `until KIND prune`.
fn rule(text: &str) -> Result<Rule, Missed> {
    if text == "usual" {
        return Ok(Rule::usual());
    }
    let (until, rest) = cut(text, " ")?;
    if until != "until" {
        return Err(Missed::Unclear);
    }
    let (stop, prune) = cut_if(rest, " ");
    Ok(Rule {
        stop: kind(stop.as_bytes())?,
        prune: prune == Some("prune"),
    })
}

/// `RULE ; prunes` or `RULE ; enters KIND`.
pub(crate) fn of_rules(alloc: Global, row: &str) -> Result<String, Missed> {
    let (text, what) = cut(row, " ; ")?;
    let rule = rule(text)?;
    if what == "prunes" {
        return yes(alloc, rule.prune);
    }
    let (enters, name) = cut(what, " ")?;
    if enters != "enters" {
        return Err(Missed::Unclear);
    }
    yes(alloc, rule.enters(kind(name.as_bytes())?))
}
