//! The shapes of a kind, each on a line.
ghost use Rattle.std.specs.Prelude.{◌≡◌, ◌<◌, ℕ, IfErr, OnOk, length, None};
ghost use Rattle.std.specs.List.{flat_map};
ghost use Rattle.orientation.specs.declared.kind.Kind as kinds;
ghost use Rattle.location_words.specs.Tables.{IsTable};
ghost use Rattle.shape_pool.specs.Rows.{HasPlaces, HaveKinds};
ghost use Rattle.file_loading.specs.Loading.{use_in};
ghost use Rattle.subshape_maps.specs.Numbered.{AreHeld, IsHeldAt};
ghost use Rattle.shape_listing.specs.Texts.{map_text};
ghost use Rattle.shape_listing.specs.Causes.{map_due, IsDue};
ghost use Rattle.shape_listing.specs.ByNumber.{line_at, lines_at};

use crate::fault::ListingFault;
use crate::lines::push_shape;
use byte_sink::TakesBytes;
use location_words::Words;
use orientation::Kind;
use shape_pool::{Pool, UseOf};
use std::alloc::Global;
use subshape_maps::{ShapeAt, map_shapes};

/// The line of a shape.
pub(crate) fn push_at<B: TakesBytes>(text: &mut B, pool: &Pool, words: &Words, at: ShapeAt)
    requires { IsHeldAt words.now pool.now at }
    ensures { B.gives text.old (line_at words.now pool.now at) text.new }
{
    push_shape(text, pool.origin(at.id), words.word(at.word).pairs());
}

/// The lines of shapes.
fn push_all<B: TakesBytes>(text: &mut B, pool: &Pool, words: &Words, shapes: &[ShapeAt])
    requires { AreHeld words.now pool.now shapes.now }
    ensures { B.gives text.old (lines_at words.now pool.now shapes.now) text.new }
{
    for at in shapes {
        push_at(text, pool, words, *at);
    }
}

/// The shapes of a kind below a root, or of every kind where none is named, each on a line.
pub(crate) fn push_map<B: TakesBytes>(
    alloc: Global,
    text: &mut B,
    pool: &Pool,
    words: &mut Words,
    root: UseOf,
    asked: Option<Kind>,
) -> Result<(), ListingFault>
    requires root { root.id.0 < length pool.now }
    requires place { root.place.0 < length words.old }
    requires places { HasPlaces pool.now (length words.old) }
    ensures text { (kind : ℕ → kinds.Kind) → HaveKinds pool.now kind →
        OnOk result (B.gives text.old (map_text kind asked (use_in words.old pool.now root)) text.new) }
    ensures within { OnOk result (map_due (use_in words.old pool.now root) ≡ None) }
    ensures refused { IfErr result (IsDue (map_due (use_in words.old pool.now root))) }
{
    pool.laws();
    let shapes = map_shapes(alloc, pool, words, root, asked)?;
    push_all(text, pool, words, shapes.as_slice());
    Ok(())
}
