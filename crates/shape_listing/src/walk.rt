//! The first occurrences of a kind, each on a line.
ghost use Rattle.std.specs.Prelude.{◌≡◌, ◌<◌, ℕ, IfErr, OnOk, length, None};
ghost use Rattle.orientation.specs.declared.kind.Kind as kinds;
ghost use Rattle.shape_pool.specs.Rows.{HasPlaces, HaveKinds};
ghost use Rattle.file_loading.specs.Loading.{use_in};
ghost use Rattle.shape_listing.specs.Texts.{walk_text};
ghost use Rattle.shape_listing.specs.Causes.{walk_due, IsDue};
ghost use Rattle.shape_listing.specs.ByNumber.{found_line, lines_left, due_left, IsExploring};

use crate::fault::ListingFault;
use crate::lines::push_shape;
use byte_sink::{TakesBytes, push_byte};
use explorer::laws::{kinds_are_there, walk_is_entered};
use explorer::{Explorer, Found};
use location_words::{Pair, Words};
use orientation::{Kind, sign};
use shape_pool::{Pool, UseOf};
use std::alloc::Global;

/// The line of an occurrence: the sign of its accumulated turn, and the line of its shape.
fn push_found<B: TakesBytes>(text: &mut B, pool: &Pool, found: Found, word: &[Pair])
    requires { found.id.0 < length pool.now }
    ensures { B.gives text.old (found_line pool.now found word.now) text.new }
{
    push_byte(text, sign(found.turn));
    push_shape(text, pool.origin(found.id), word);
}

/// The lines of the next occurrences, so many at most.
fn push_next<B: TakesBytes>(
    text: &mut B,
    pool: &Pool,
    explorer: &mut Explorer<'_>,
    count: u32,
) -> Result<(), ListingFault>
    requires { IsExploring pool.now explorer.old }
    ensures text { (kind : ℕ → kinds.Kind) → HaveKinds pool.now kind →
        OnOk result (B.gives text.old (lines_left kind count explorer.old) text.new) }
    ensures within { (kind : ℕ → kinds.Kind) → HaveKinds pool.now kind →
        OnOk result (due_left kind count explorer.old ≡ None) }
    ensures refused { (kind : ℕ → kinds.Kind) → HaveKinds pool.now kind →
        IfErr result (IsDue (due_left kind count explorer.old)) }
{
    pool.laws();
    kinds_are_there();
    'lines: for _at in 0..count {
        match explorer.next()? {
            Some(found) => push_found(text, pool, found, explorer.word()),
            None => return Ok(()),
        }
    }
    Ok(())
}

/// The first occurrences of a kind below a root, or of every kind where none is named, so many at most, each on a line.
pub(crate) fn push_walk<B: TakesBytes>(
    alloc: Global,
    text: &mut B,
    pool: &Pool,
    words: &Words,
    root: UseOf,
    asked: Option<Kind>,
    count: u32,
) -> Result<(), ListingFault>
    requires root { root.id.0 < length pool.now }
    requires place { root.place.0 < length words.now }
    requires places { HasPlaces pool.now (length words.now) }
    ensures text { (kind : ℕ → kinds.Kind) → HaveKinds pool.now kind →
        OnOk result (B.gives text.old (walk_text kind asked count (use_in words.now pool.now root)) text.new) }
    ensures within { (kind : ℕ → kinds.Kind) → HaveKinds pool.now kind →
        OnOk result (walk_due kind asked count (use_in words.now pool.now root) ≡ None) }
    ensures refused { (kind : ℕ → kinds.Kind) → HaveKinds pool.now kind →
        IfErr result (IsDue (walk_due kind asked count (use_in words.now pool.now root))) }
{
    walk_is_entered();
    let mut explorer = Explorer::new(alloc, pool, words, root, asked, None)?;
    push_next(text, pool, &mut explorer, count)
}
