//! The nodes that are entered, with room for as many as may be.
ghost use Rattle.std.specs.Prelude.{◌≡◌, ◌<◌, ◌≤◌, [], None, Some, length, map, vec_capacity};
ghost use Rattle.std.specs.Prelude.{IfErr, IfNone, IfOk, IfSome, OnErr, OnOk, All};
ghost use Rattle.location_words.specs.Pairs.{IsHeldWord};
ghost use Rattle.explorer.specs.declared.trail.Level.{Level as ALevel};
ghost use Rattle.explorer.specs.Levels.{innermost};
ghost use Rattle.explorer.specs.Trails.{entered_of, fault_below, Enters, HaveRoom, IsInnermost, IsLeft, IsPast};

use location_words::{MOST_PAIRS, Pair, WordFault, Words, mul_into};
use orientation::{Turn, compose};
use shape_pool::{NodeId, UseOf};
use std::alloc::{AllocError, Global};
use std::marker::Model;

/// A node that is entered: its number, how many of its uses are gone through, and its accumulated turn and word.
#[derive(Drop)]
pub(crate) struct Level {
    id: NodeId,
    at: usize,
    turn: Turn,
    word: Vec<Pair>,
}

/// The nodes that are entered, from the outermost to the innermost, and room for the words of those that will be.
#[derive(Drop)]
pub(crate) struct Trail {
    levels: Vec<Level>,
    spare: Vec<Vec<Pair>>,
}

impl Model for Trail {
    ghost use Rattle.std.specs.Prelude.{vec_capacity};
    ghost use Rattle.explorer.specs.Levels.{Path};
    ghost use Rattle.explorer.specs.Trails.{path_of, HasRoom};

    ghost Value = { Path };

    ghost view = { λ t. path_of t.levels.items t.spare.items };

    ghost invariant = { λ t. HasRoom t.levels.items (vec_capacity t.levels) t.spare.items (vec_capacity t.spare) };
}

/// The accumulated turn of the innermost level, and forward where there is none.
fn turn_of(levels: &[Level]) -> Turn
    ensures { result ≡ (innermost (map entered_of levels.now)).turn }
{
    match levels.last() {
        Some(level) => level.turn,
        None => Turn::Forward,
    }
}

/// The accumulated word of the innermost level, and the identity where there is none.
fn word_of(levels: &[Level]) -> &[Pair]
    requires { All (λ (l : ALevel). IsHeldWord l.word.items) levels.now }
    ensures word { result.now ≡ (innermost (map entered_of levels.now)).word }
    ensures held { IsHeldWord result.now }
{
    match levels.last() {
        Some(level) => level.word.as_slice(),
        None => &[],
    }
}

/// Room for as many words.
fn rooms(alloc: Global, count: u32) -> Result<Vec<Vec<Pair>>, AllocError>
    ensures count { IfOk result (λ rooms. length rooms.items ≡ count) }
    ensures room { IfOk result (λ rooms. HaveRoom rooms.items) }
    ensures fits { IfOk result (λ rooms. count ≤ vec_capacity rooms) }
{
    let mut rooms = Vec::with_capacity(alloc, count as usize)?;
    for _ in 0..count {
        let room = Vec::with_capacity(alloc, MOST_PAIRS)?;
        match rooms.push(room) {
            Ok(()) => {}
            Err(_) => return Err(AllocError),
        }
    }
    Ok(rooms)
}

impl Trail {
    /// No node, and room for so many, one in another.
    pub(crate) fn new(alloc: Global, deep: u32) -> Result<Trail, AllocError>
        ensures none { IfOk result (λ trail. trail.levels ≡ []) }
        ensures deep { IfOk result (λ trail. trail.deep ≡ deep) }
    {
        let spare = rooms(alloc, deep)?;
        let levels = Vec::with_capacity(alloc, deep as usize)?;
        Ok(Trail { levels, spare })
    }

    /// The innermost node, and how many of its uses are gone through.
    pub(crate) fn last(&self) -> Option<(NodeId, usize)>
        ensures some { IfSome result (λ last. IsInnermost self.now.levels last.0 last.1) }
        ensures none { IfNone result (self.now.levels ≡ []) }
    {
        let level = self.levels.last()?;
        Some((level.id, level.at))
    }

    /// The accumulated turn of the innermost node.
    pub(crate) fn turn(&self) -> Turn
        ensures { result ≡ (innermost self.now.levels).turn }
    {
        turn_of(self.levels.as_slice())
    }

    /// The accumulated word of the innermost node.
    pub(crate) fn word(&self) -> &[Pair]
        ensures word { result.now ≡ (innermost self.now.levels).word }
        ensures held { IsHeldWord result.now }
    {
        word_of(self.levels.as_slice())
    }

    /// So many uses of the innermost node are gone through.
    pub(crate) fn pass(&mut self, at: usize)
        ensures levels { IsPast self.old.levels at self.new.levels }
        ensures deep { self.new.deep ≡ self.old.deep }
    {
        if let Some(mut level) = self.levels.pop() {
            level.at = at;
            self.levels.push_reserved(level);
        }
    }

    /// Leaves the innermost node.
    pub(crate) fn leave(&mut self)
        ensures levels { IsLeft self.old.levels self.new.levels }
        ensures deep { self.new.deep ≡ self.old.deep }
    {
        if let Some(level) = self.levels.pop() {
            self.spare.push_reserved(level.word);
        }
    }

    /// Enters the node of a use of the innermost one, where the accumulated word is within the limits.
    pub(crate) fn enter(&mut self, words: &Words, one: UseOf) -> Result<(), WordFault>
        requires room { length self.old.levels < self.old.deep }
        requires place { one.place.0 < length words.now }
        ensures ok { OnOk result (Enters words.now self.old.levels one self.new.levels) }
        ensures within { OnOk result (fault_below words.now self.old.levels one ≡ None) }
        ensures refused { IfErr result (λ fault. fault_below words.now self.old.levels one ≡ Some fault) }
        ensures err { OnErr result (self.new.levels ≡ self.old.levels) }
        ensures deep { self.new.deep ≡ self.old.deep }
    {
        let mut word = self.spare.pop().unwrap();
        let outer = self.levels.as_slice();
        let turn = compose(turn_of(outer), one.turn);
        match mul_into(word_of(outer), words.word(one.place), &mut word) {
            Ok(()) => {
                self.levels.push_reserved(Level {
                    id: one.id,
                    at: 0,
                    turn,
                    word,
                });
                Ok(())
            }
            Err(fault) => {
                self.spare.push_reserved(word);
                Err(fault)
            }
        }
    }
}
