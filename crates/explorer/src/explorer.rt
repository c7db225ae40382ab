//! The explorer.
ghost use Rattle.std.specs.Prelude.{◌≡◌, ◌<◌, ◌≤◌, [], None, length, vec_capacity, IfOk};
ghost use Rattle.shape_pool.specs.Rows.{HasPlaces};
ghost use Rattle.explorer.specs.Going.{Answers, BeginsAt, GoesOn, IsOf, IsTold};
ghost use Rattle.explorer.specs.Levels.{AnswersOnWay, IsOnItsWay};

use crate::entering::next_use;
use crate::found::{Found, WordLimit, limit_of};
use crate::giving::{all_marks, is_sought};
use crate::trail::Trail;
use location_words::laws::words_are_a_group;
use location_words::{MOST_PAIRS, Pair, Words};
use orientation::Kind;
use shape_pool::{Pool, UseOf};
use std::alloc::{AllocError, Global};
use std::marker::Model;

/// Goes through the occurrences of a root: those of a kind, neither of a kind that is avoided nor below one. It is
/// made with all the memory that it needs.
#[derive(Drop)]
pub struct Explorer<'a> {
    pool: &'a Pool,
    words: &'a Words,
    find: Option<Kind>,
    avoid: Option<Kind>,
    marks: Vec<bool>,
    start: Option<UseOf>,
    trail: Trail,
    last: Vec<Pair>,
    limit: Option<WordLimit>,
}

impl<'a> Model for Explorer<'a> {
    ghost use Rattle.explorer.specs.Going.{Going};
    ghost use Rattle.explorer.specs.Levels.{going_of, IsExplorer};

    ghost Value = { Going };

    ghost view = { λ e. going_of e.words.now e.pool.now e.find e.avoid e.start e.trail e.last.items e.limit };

    ghost invariant = { λ e. IsExplorer e.words.now e.pool.now e.find e.avoid e.marks.items e.start e.trail e.last };
}

/// What comes first of what is still to come.
fn go_on(
    pool: &Pool,
    words: &Words,
    find: Option<Kind>,
    marks: &[bool],
    start: &mut Option<UseOf>,
    trail: &mut Trail,
) -> Result<Option<Found>, WordLimit>
    requires { IsOnItsWay words.now pool.now marks.now start.old trail.old }
    ensures answer { AnswersOnWay words.now pool.now find marks.now start.old trail.old start.new trail.new result }
    ensures way { IsOnItsWay words.now pool.now marks.now start.new trail.new }
{
    pool.laws();
    let _ = words.len();
    while let Some(one) = next_use(pool, marks, start, trail) {
        match trail.enter(words, one) {
            Ok(()) => {}
            Err(fault) => return Err(limit_of(fault)),
        }
        if is_sought(find, pool.kind(one.id)) {
            return Ok(Some(Found {
                turn: trail.turn(),
                id: one.id,
            }));
        }
    }
    Ok(None)
}

/// Puts a word into a list that has room for it.
fn put(last: &mut Vec<Pair>, word: &[Pair])
    requires { length word.now ≤ vec_capacity last.old }
    ensures items { last.new.items ≡ word.now }
    ensures capacity { vec_capacity last.old ≤ vec_capacity last.new }
{
    last.clear();
    last.extend_from_slice(word).unwrap();
}

impl<'a> Explorer<'a> {
    /// An explorer of the occurrences of a root of the kind `find`, or of every kind where none is named, that are
    /// neither of the kind `avoid` nor below one.
    pub fn new(
        alloc: Global,
        pool: &'a Pool,
        words: &'a Words,
        root: UseOf,
        find: Option<Kind>,
        avoid: Option<Kind>,
    ) -> Result<Explorer<'a>, AllocError>
        requires root { root.id.0 < length pool.now }
        requires place { root.place.0 < length words.now }
        requires places { HasPlaces pool.now (length words.now) }
        ensures left { IfOk result (BeginsAt words.now pool.now root find avoid) }
        ensures of { IfOk result (λ e. IsOf e words.now pool.now find avoid) }
        ensures last { IfOk result (λ e. e.last ≡ []) }
        ensures limit { IfOk result (λ e. e.limit ≡ None) }
    {
        pool.laws();
        words_are_a_group();
        let _ = words.len();
        let marks = all_marks(alloc, pool, root.id, find, avoid)?;
        let trail = Trail::new(alloc, pool.depth(root.id))?;
        let last = Vec::with_capacity(alloc, MOST_PAIRS)?;
        Ok(Explorer {
            pool,
            words,
            find,
            avoid,
            marks,
            start: Some(root),
            trail,
            last,
            limit: None,
        })
    }

    /// The next occurrence, depth first, parents before children, uses in order, and none at the end. It takes no
    /// memory, and enters only nodes that have an occurrence to give.
    ///
    /// It is refused where the accumulated word of a node that is entered is past a limit of words, and from then on.
    pub fn next(&mut self) -> Result<Option<Found>, WordLimit>
        ensures answer { Answers self.old self.new result }
        ensures told { IsTold self.old self.new result }
        ensures same { GoesOn self.old self.new }
    {
        if let Some(limit) = self.limit {
            return Err(limit);
        }
        let pool = self.pool;
        let words = self.words;
        match go_on(
            pool,
            words,
            self.find,
            self.marks.as_slice(),
            &mut self.start,
            &mut self.trail,
        ) {
            Ok(Some(found)) => {
                put(&mut self.last, self.trail.word());
                Ok(Some(found))
            }
            Ok(None) => Ok(None),
            Err(limit) => {
                self.limit = Some(limit);
                Err(limit)
            }
        }
    }

    /// The accumulated word of the last occurrence that was given, and the identity before the first.
    pub fn word(&self) -> &[Pair]
        ensures { result.now ≡ self.now.last }
    {
        self.last.as_slice()
    }
}
