//! Products of words by their numbers.
ghost use Rattle.std.specs.Prelude.{◌≡◌, ◌<◌, ◌↔◌, length, IfErr, IfOk, IsTrue};
ghost use Rattle.location_words.specs.Pairs.{inverse as inverse_of, mul as mul_of};
ghost use Rattle.key_results.specs.Words.{moved_word, GrowsTo, IsDueAt, IsHeldMover, IsNumberOf};

use location_words::laws::words_are_a_group;
use location_words::{Word, WordFault, WordId, Words, inverse, mul, product};
use std::alloc::{AllocError, Global};

/// The number of the identity.
pub const IDENTITY: WordId = WordId(0);

/// The words under which the uses that a visit asks for are moved, outermost first.
#[derive(Clone, Copy, Debug, PartialEq, Eq)]
pub struct Mover {
    pub back: WordId,
    pub by: WordId,
}

/// The mover that moves nothing.
pub fn no_mover() -> Mover
    ensures back { result.back.0 ≡ 0 }
    ensures by { result.by.0 ≡ 0 }
{
    Mover {
        back: IDENTITY,
        by: IDENTITY,
    }
}

/// The number of a word.
fn entered(words: &mut Words, word: Word) -> Result<WordId, WordFault>
    ensures number { IfOk result (λ k. IsNumberOf words.new k.0 (λ _. word)) }
    ensures refused { IfErr result (λ fault. fault ≡ WordFault.NoMemory) }
    ensures grows { GrowsTo words.old words.new }
{
    match words.intern(word) {
        Ok(id) => Ok(id),
        Err(_) => Err(WordFault::NoMemory),
    }
}

/// The number of the product of two words.
fn times(words: &mut Words, outer: WordId, inner: WordId) -> Result<WordId, WordFault>
    requires outer { outer.0 < length words.old }
    requires inner { inner.0 < length words.old }
    ensures number { IfOk result (λ k. IsNumberOf words.new k.0 (λ word. mul_of (word outer.0) (word inner.0))) }
    ensures refused { IfErr result (IsDueAt words.new (λ word. mul_of (word outer.0) (word inner.0))) }
    ensures grows { GrowsTo words.old words.new }
{
    words_are_a_group();
    let _ = words.len();
    if outer.0 == 0 {
        return Ok(inner);
    }
    if inner.0 == 0 {
        return Ok(outer);
    }
    let word = mul(words.word(outer), words.word(inner))?;
    entered(words, word)
}

/// The number of the product of four words, outermost first. Only the whole is tested.
fn times_all(
    alloc: Global,
    words: &mut Words,
    first: WordId,
    second: WordId,
    third: WordId,
    last: WordId,
) -> Result<WordId, WordFault>
    requires first { first.0 < length words.old }
    requires second { second.0 < length words.old }
    requires third { third.0 < length words.old }
    requires last { last.0 < length words.old }
    ensures number { IfOk result (λ k. IsNumberOf words.new k.0
        (λ word. mul_of (word first.0) (mul_of (word second.0) (mul_of (word third.0) (word last.0))))) }
    ensures refused { IfErr result (IsDueAt words.new
        (λ word. mul_of (word first.0) (mul_of (word second.0) (mul_of (word third.0) (word last.0))))) }
    ensures grows { GrowsTo words.old words.new }
{
    words_are_a_group();
    let word = product(
        alloc,
        &[
            words.word(first),
            words.word(second),
            words.word(third),
            words.word(last),
        ],
    )?;
    entered(words, word)
}

/// Whether a mover moves nothing.
fn is_idle(mover: Mover) -> bool
    ensures { IsTrue result ↔ ((mover.back.0 ≡ 0) × (mover.by.0 ≡ 0)) }
{
    mover.back.0 == 0 && mover.by.0 == 0
}

/// The accumulated word of a use that a visit asks for, by that of the visit.
pub fn accumulated(
    alloc: Global,
    words: &mut Words,
    here: WordId,
    mover: Mover,
    own: WordId,
) -> Result<WordId, WordFault>
    requires here { here.0 < length words.old }
    requires mover { IsHeldMover (length words.old) mover }
    requires own { own.0 < length words.old }
    ensures number { IfOk result (λ k. IsNumberOf words.new k.0
        (λ word. mul_of (word here.0) (moved_word word mover own.0))) }
    ensures refused { IfErr result (IsDueAt words.new (λ word. mul_of (word here.0) (moved_word word mover own.0))) }
    ensures grows { GrowsTo words.old words.new }
{
    words_are_a_group();
    let _ = words.len();
    if is_idle(mover) {
        return times(words, here, own);
    }
    times_all(alloc, words, here, mover.back, mover.by, own)
}

/// The word of a result of a use that a visit asks for, as the use carries it.
pub fn carried(
    alloc: Global,
    words: &mut Words,
    mover: Mover,
    own: WordId,
    inner: WordId,
) -> Result<WordId, WordFault>
    requires mover { IsHeldMover (length words.old) mover }
    requires own { own.0 < length words.old }
    requires inner { inner.0 < length words.old }
    ensures number { IfOk result (λ k. IsNumberOf words.new k.0
        (λ word. mul_of (moved_word word mover own.0) (word inner.0))) }
    ensures refused { IfErr result (IsDueAt words.new (λ word. mul_of (moved_word word mover own.0) (word inner.0))) }
    ensures grows { GrowsTo words.old words.new }
{
    words_are_a_group();
    let _ = words.len();
    if is_idle(mover) {
        return times(words, own, inner);
    }
    times_all(alloc, words, mover.back, mover.by, own, inner)
}

/// The number of the inverse of a word.
pub fn undone(words: &mut Words, word: WordId) -> Result<WordId, AllocError>
    requires { word.0 < length words.old }
    ensures number { IfOk result (λ k. IsNumberOf words.new k.0 (λ reads. inverse_of (reads word.0))) }
    ensures grows { GrowsTo words.old words.new }
{
    let back = inverse(words.word(word))?;
    words.intern(back)
}
