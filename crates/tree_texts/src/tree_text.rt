//! How trees stand in rows: `-2Ed@3^1(7Ve -8Ve)` is a reversed use, at the datum 3, of the edge 2 over its uses.
use crate::reading::{Missed, cut_if, digits, kind};
use crate::word_text::place;
use expansion_laws::{Tree, TreeUse};
use location_words::Word;
use orientation::{Kind, Turn, of_sign};
use std::alloc::Global;
use std::mem;

/// The kinds of the origins from 1 on, as far as they are known.
#[derive(Drop)]
pub struct Kinds {
    known: Vec<Option<Kind>>,
}

impl Kinds {
    pub fn new(alloc: Global) -> Kinds {
        Kinds {
            known: Vec::new(alloc),
        }
    }

    /// Notes the kind of an origin below 1,000, which has to be the one that was noted before. Origin 0 is a compound.
    fn note(&mut self, origin: u32, kind: Kind) -> Result<(), Missed> {
        if origin == 0 {
            return if kind == Kind::Co {
                Ok(())
            } else {
                Err(Missed::Unclear)
            };
        }
        let place = origin as usize - 1;
        if place >= 1_000 {
            return Err(Missed::Unclear);
        }
        for _ in self.known.len()..origin as usize {
            self.known.push(None)?;
        }
        match self.known.get_mut(place) {
            Some(known) => if known.is_none() || *known == Some(kind) {
                *known = Some(kind);
                Ok(())
            } else {
                Err(Missed::Unclear)
            },
            None => Err(Missed::Unclear),
        }
    }

    /// All kinds; those that aren't known are compounds.
    pub fn all(&self, alloc: Global) -> Result<Vec<Kind>, Missed> {
        let mut kinds = Vec::new(alloc);
        for known in &self.known {
            kinds.push(known.unwrap_or(Kind::Co))?;
        }
        Ok(kinds)
    }
}

/// What stands before a list of uses: the turn, the word and the origin of a use.
#[derive(Drop)]
struct Head {
    turn: Turn,
    word: Word,
    origin: u32,
}

/// The sign at the front of a text, and what comes after it.
pub fn without_sign(text: &[u8]) -> (Option<Turn>, &[u8]) {
    match text {
        [b, rest @ ..] => match of_sign(*b) {
            Some(turn) => (Some(turn), rest),
            None => (None, text),
        },
        [] => (None, text),
    }
}

/// The turn that a text begins with, if it begins with a sign.
pub fn turn_at(text: &str) -> Option<Turn> {
    without_sign(text.as_bytes()).0
}

/// The origin and the kind of `12Co`.
fn origin(text: &[u8], kinds: &mut Kinds) -> Result<u32, Missed> {
    if text.len() < 2 {
        return Err(Missed::Unclear);
    }
    let (number, name) = text.split_at(text.len() - 2);
    let origin = digits(number)?;
    kinds.note(origin, kind(name)?)?;
    Ok(origin)
}

/// The head of a use.
fn head_of(alloc: Global, label: &str, kinds: &mut Kinds) -> Result<Head, Missed> {
    let (front, back) = cut_if(label, "@");
    let word = match back {
        Some(text) => place(alloc, text)?,
        None => Word::identity(alloc),
    };
    let (turn, name) = without_sign(front.as_bytes());
    Ok(Head {
        turn: turn.unwrap_or(Turn::Forward),
        word,
        origin: origin(name, kinds)?,
    })
}

/// A head with the uses of its tree.
fn with_uses(alloc: Global, head: Head, uses: Vec<TreeUse>) -> Result<TreeUse, Missed> {
    let tree = Tree {
        origin: head.origin,
        uses,
    };
    Ok(TreeUse {
        turn: head.turn,
        word: head.word,
        tree: Box::new(alloc, tree)?,
    })
}

/// A use whose list is open, and the uses that stand before it.
#[derive(Drop)]
struct Open {
    head: Head,
    before: Vec<TreeUse>,
}

/// A text that is being read.
#[derive(Drop)]
struct Reading {
    alloc: Global,
    label: String,
    uses: Vec<TreeUse>,
    open: Vec<Open>,
}

impl Reading {
    /// The label so far, and none from then on.
    fn label(&mut self) -> String {
        mem::replace(&mut self.label, String::new(self.alloc))
    }

    /// The uses of the list so far, and none from then on.
    fn uses(&mut self) -> Vec<TreeUse> {
        mem::replace(&mut self.uses, Vec::new(self.alloc))
    }

    /// Opens the list of the use whose label ends.
    fn begin(&mut self, kinds: &mut Kinds) -> Result<(), Missed> {
        let label = self.label();
        let head = head_of(self.alloc, label.as_str(), kinds)?;
        let before = self.uses();
        self.open.push(Open { head, before })?;
        Ok(())
    }

    /// Ends a use without a list, if there is one.
    fn leaf(&mut self, kinds: &mut Kinds) -> Result<(), Missed> {
        let label = self.label();
        if label.is_empty() {
            return Ok(());
        }
        let head = head_of(self.alloc, label.as_str(), kinds)?;
        let one = with_uses(self.alloc, head, Vec::new(self.alloc))?;
        self.uses.push(one)?;
        Ok(())
    }

    /// Ends the list that is open.
    fn end(&mut self) -> Result<(), Missed> {
        let uses = self.uses();
        let Some(open) = self.open.pop() else {
            return Err(Missed::Unclear);
        };
        self.uses = open.before;
        let one = with_uses(self.alloc, open.head, uses)?;
        self.uses.push(one)?;
        Ok(())
    }

    /// Takes the next character.
    fn take(&mut self, c: char, kinds: &mut Kinds) -> Result<(), Missed> {
        match c {
            '(' => self.begin(kinds),
            ' ' => self.leaf(kinds),
            ')' => {
                self.leaf(kinds)?;
                self.end()
            }
            _ => {
                self.label.push(c)?;
                Ok(())
            }
        }
    }
}

/// The use of a text, whose kinds are noted.
pub fn tree(alloc: Global, text: &str, kinds: &mut Kinds) -> Result<TreeUse, Missed> {
    let mut reading = Reading {
        alloc,
        label: String::new(alloc),
        uses: Vec::new(alloc),
        open: Vec::new(alloc),
    };
    for c in text.chars() {
        reading.take(c, kinds)?;
    }
    reading.leaf(kinds)?;
    let only = reading.uses.pop();
    if !reading.open.is_empty() || !reading.uses.is_empty() {
        return Err(Missed::Unclear);
    }
    match only {
        Some(one) => Ok(one),
        None => Err(Missed::Unclear),
    }
}
