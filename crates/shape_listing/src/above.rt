//! The shapes of a kind, each on a line, with those of a higher kind above it on lines of their own.
ghost use Rattle.std.specs.Prelude.{◌≡◌, ◌<◌, ℕ, IfErr, OnOk, length, None};
ghost use Rattle.orientation.specs.declared.kind.Kind as kinds;
ghost use Rattle.shape_pool.specs.Rows.{HasPlaces, HaveKinds};
ghost use Rattle.file_loading.specs.Loading.{use_in};
ghost use Rattle.subshape_maps.specs.Numbered.{AreHeld, IsHeldAt};
ghost use Rattle.shape_listing.specs.Texts.{above_text};
ghost use Rattle.shape_listing.specs.Causes.{above_due, IsDue};
ghost use Rattle.shape_listing.specs.ByNumber.{high_lines_at, row_lines_at, rows_lines_at, AreRowsHeld};

use crate::fault::ListingFault;
use crate::map::push_at;
use byte_sink::TakesBytes;
use location_words::Words;
use orientation::Kind;
use shape_pool::{Pool, UseOf};
use std::alloc::Global;
use subshape_maps::{AboveOne, ShapeAt, ancestors};

/// The lines of shapes, each after two spaces.
fn push_high<B: TakesBytes>(text: &mut B, pool: &Pool, words: &Words, shapes: &[ShapeAt])
    requires { AreHeld words.now pool.now shapes.now }
    ensures { B.gives text.old (high_lines_at words.now pool.now shapes.now) text.new }
{
    for at in shapes {
        text.push(b"  ");
        push_at(text, pool, words, *at);
    }
}

/// The line of a shape, and those of the shapes above it.
fn push_row<B: TakesBytes>(text: &mut B, pool: &Pool, words: &Words, row: &AboveOne)
    requires low { IsHeldAt words.now pool.now row.now.low }
    requires high { AreHeld words.now pool.now row.now.high }
    ensures { B.gives text.old (row_lines_at words.now pool.now row.now) text.new }
{
    push_at(text, pool, words, row.low);
    push_high(text, pool, words, row.high.as_slice());
}

/// The lines of shapes, each with those above it.
fn push_rows<B: TakesBytes>(text: &mut B, pool: &Pool, words: &Words, rows: &[AboveOne])
    requires { AreRowsHeld words.now pool.now rows.now }
    ensures { B.gives text.old (rows_lines_at words.now pool.now rows.now) text.new }
{
    for row in rows {
        push_row(text, pool, words, row);
    }
}

/// The shapes of a kind below a root, each on a line, with those of another kind above it, each on a line after two
/// spaces.
pub(crate) fn push_above<B: TakesBytes>(
    alloc: Global,
    text: &mut B,
    pool: &Pool,
    words: &mut Words,
    root: UseOf,
    low: Kind,
    high: Kind,
) -> Result<(), ListingFault>
    requires root { root.id.0 < length pool.now }
    requires place { root.place.0 < length words.old }
    requires places { HasPlaces pool.now (length words.old) }
    ensures text { (kind : ℕ → kinds.Kind) → HaveKinds pool.now kind →
        OnOk result (B.gives text.old (above_text kind low high (use_in words.old pool.now root)) text.new) }
    ensures within { (kind : ℕ → kinds.Kind) → HaveKinds pool.now kind →
        OnOk result (above_due kind low high (use_in words.old pool.now root) ≡ None) }
    ensures refused { (kind : ℕ → kinds.Kind) → HaveKinds pool.now kind →
        IfErr result (IsDue (above_due kind low high (use_in words.old pool.now root))) }
{
    pool.laws();
    let above = ancestors(alloc, pool, words, root, low, high)?;
    push_rows(text, pool, words, above.as_slice());
    Ok(())
}
