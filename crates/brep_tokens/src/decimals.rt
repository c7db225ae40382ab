//! A list of decimals as they are spelled.
ghost use Rattle.brep_tokens.specs.Spaced.{front, spaced, texts};
ghost use Rattle.std.specs.Prelude.{◌≡◌, ◌∷◌, ◌++◌, ◌+◌, ◌^◌, ◌<◌, ◌≤◌, ◌↔◌, IfNone, IfSome, IsTrue, OnErr, OnOk, Some};
ghost use Rattle.std.specs.Prelude.{[], length, slice_get};

use std::alloc::{AllocError, Global};
use std::marker::Model;

/// Decimals, their texts in one run of bytes, each after a space.
#[derive(Drop)]
pub struct Decimals {
    run: Vec<u8>,
    count: u32,
}

impl Model for Decimals {
    ghost use Rattle.brep_tokens.specs.Spaced.{IsSpaced, texts};
    ghost use Rattle.std.specs.Prelude.{ℕ, List};

    ghost Value = { List (List ℕ) };

    ghost view = { λ d. texts d.run.items };

    ghost invariant = { λ d. IsSpaced d.run.items d.count };
}

/// Has the text no space?
fn has_no_space(text: &[u8]) -> bool
    ensures { IsTrue result ↔ (texts text.now ≡ []) }
{
    let mut at = 0usize;
    'bytes: while at < text.len() {
        if text[at] == 32 {
            return false;
        }
        at += 1;
    }
    true
}

/// The bytes before the first space, and those behind them.
fn split_front(bytes: &[u8]) -> (&[u8], &[u8])
    ensures front { result.0.now ≡ front bytes.now }
    ensures rest { texts result.1.now ≡ texts bytes.now }
{
    let mut at = 0usize;
    'bytes: while at < bytes.len() && bytes[at] != 32 {
        at += 1;
    }
    (&bytes[..at], &bytes[at..])
}

/// The text at a place of a run.
fn text_at(run: &[u8], place: usize) -> &[u8]
    requires { place < length (texts run.now) }
    ensures { slice_get (texts run.now) place ≡ Some result.now }
{
    let mut at = 0usize;
    let mut left = place;
    'spaces: while at < run.len() {
        if run[at] == 32 {
            if left == 0 {
                return split_front(&run[at + 1..]).0;
            }
            left -= 1;
        }
        at += 1;
    }
    unreachable!()
}

/// The first text of a run, and the run behind it.
pub fn first_text(run: &[u8]) -> Option<(&[u8], &[u8])>
    ensures some { IfSome result (λ r. texts run.now ≡ r.0.now ∷ texts r.1.now) }
    ensures none { IfNone result (texts run.now ≡ []) }
{
    let mut at = 0usize;
    'front: while at < run.len() && run[at] != 32 {
        at += 1;
    }
    if at == run.len() {
        return None;
    }
    Some(split_front(&run[at + 1..]))
}

impl Decimals {
    /// No decimals.
    pub fn new(alloc: Global) -> Decimals
        ensures { result ≡ [] }
    {
        Decimals {
            run: Vec::new(alloc),
            count: 0,
        }
    }

    /// Appends one. A text with a space is refused too, and so is a list of 4,294,967,295 bytes or more, the space before
    /// each text among them.
    #[tactic(auto, using(crate::proofs::SpacedLemmas::texts_few))]
    pub fn push(&mut self, item: &[u8]) -> Result<(), AllocError>
        ensures ok { OnOk result (self.new ≡ self.old ++ item.now ∷ []) }
        ensures err { OnErr result (self.new ≡ self.old) }
    {
        if self.run.len() + item.len() >= 0xFFFF_FFFF || !has_no_space(item) {
            return Err(AllocError);
        }
        self.run.reserve(item.len() + 1)?;
        self.run.push_reserved(b' ');
        match self.run.extend_from_slice(item) {
            Ok(()) => {
                self.count += 1;
                Ok(())
            }
            Err(_) => unreachable!(),
        }
    }

    /// Gives back the room behind the last text.
    pub fn trim(&mut self)
        ensures { self.new ≡ self.old }
    {
        self.run.shrink_to_fit();
    }

    /// How many there are.
    pub fn len(&self) -> usize
        ensures { result ≡ length self.now }
    {
        self.count as usize
    }

    /// Are there none?
    pub fn is_empty(&self) -> bool
        ensures { IsTrue result ↔ (self.now ≡ []) }
    {
        self.len() == 0
    }

    /// The texts, each after a space.
    #[tactic(auto, using(crate::proofs::SpacedLemmas::spaced_texts))]
    pub fn spaced(&self) -> &[u8]
        ensures run { result.now ≡ spaced self.now }
        ensures texts { texts result.now ≡ self.now }
    {
        self.run.as_slice()
    }

    /// The text at a place. It is found by going over the texts before it.
    pub fn get(&self, at: usize) -> Option<&[u8]>
        ensures some { IfSome result (λ x. slice_get self.now at ≡ Some x.now) }
        ensures none { IfNone result (length self.now ≤ at) }
        ensures fits { IfSome result (λ x. at + 1 < 2 ^ 64) }
    {
        if at < self.count as usize {
            Some(text_at(&self.run, at))
        } else {
            None
        }
    }
}
