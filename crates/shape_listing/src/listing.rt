//! What is listed of a file, and its text.
ghost use Rattle.std.specs.Prelude.{◌≡◌, ◌<◌, ℕ, [], IfErr, IfOk, OnOk, length, None};
ghost use Rattle.orientation.specs.declared.kind.Kind as kinds;
ghost use Rattle.shape_pool.specs.Rows.{HasPlaces, HaveKinds};
ghost use Rattle.brep_file.specs.Sound.{IsSound, IsWithinLimits};
ghost use Rattle.file_loading.specs.Loading.{use_in};
ghost use Rattle.shape_listing.specs.Files.{listing_due, text_of_listing};
ghost use Rattle.shape_listing.specs.Texts.{text_of};
ghost use Rattle.shape_listing.specs.Causes.{due_of, IsDue};

use crate::above::push_above;
use crate::fault::ListingFault;
use crate::map::push_map;
use crate::walk::push_walk;
use brep_file::File;
use byte_sink::laws::texts_are_kept;
use byte_sink::{TakesBytes, TextBytes};
use file_loading::load_file;
use location_words::Words;
use orientation::Kind;
use shape_pool::{Pool, UseOf};
use std::alloc::Global;

/// What is listed of the expansion of a file.
#[derive(Clone, Copy, Debug, PartialEq, Eq)]
pub enum Listing {
    /// The shapes of a kind, or of every kind where none is named, each once.
    Shapes(Option<Kind>),
    /// The shapes of a kind, each with those of another kind that stand above one of its occurrences.
    Above { low: Kind, high: Kind },
    /// The occurrences of a kind, or of every kind where none is named, so many at most.
    Walk { kind: Option<Kind>, count: u32 },
}

/// How many bytes of a text there is room for at the start.
const ROOM: usize = 4_096;

/// The text of what is listed below a root.
fn push_listing<B: TakesBytes>(
    alloc: Global,
    text: &mut B,
    pool: &Pool,
    words: &mut Words,
    root: UseOf,
    listing: Listing,
) -> Result<(), ListingFault>
    requires root { root.id.0 < length pool.now }
    requires place { root.place.0 < length words.old }
    requires places { HasPlaces pool.now (length words.old) }
    ensures text { (kind : ℕ → kinds.Kind) → HaveKinds pool.now kind →
        OnOk result (B.gives text.old (text_of kind listing (use_in words.old pool.now root)) text.new) }
    ensures within { (kind : ℕ → kinds.Kind) → HaveKinds pool.now kind →
        OnOk result (due_of kind listing (use_in words.old pool.now root) ≡ None) }
    ensures refused { (kind : ℕ → kinds.Kind) → HaveKinds pool.now kind →
        IfErr result (IsDue (due_of kind listing (use_in words.old pool.now root))) }
{
    match listing {
        Listing::Shapes(kind) => push_map(alloc, text, pool, words, root, kind),
        Listing::Above { low, high } => push_above(alloc, text, pool, words, root, low, high),
        Listing::Walk { kind, count } => push_walk(alloc, text, pool, words, root, kind, count),
    }
}

/// The text of what is listed of a file, by a pool and a table of words of its own.
fn loaded_text(
    alloc: Global,
    file: &File,
    pool: &mut Pool,
    words: &mut Words,
    listing: Listing,
) -> Result<Vec<u8>, ListingFault>
    requires sound { IsSound file.now }
    requires within { IsWithinLimits file.now }
    requires pool { pool.old ≡ [] }
    ensures text { IfOk result (λ text. text.items ≡ text_of_listing file.now listing) }
    ensures none_due { OnOk result (listing_due file.now listing ≡ None) }
    ensures refused { IfErr result (IsDue (listing_due file.now listing)) }
{
    texts_are_kept();
    let root = match load_file(alloc, file, pool, words) {
        Ok(root) => root,
        Err(_) => return Err(ListingFault::NoMemory),
    };
    let mut text = match TextBytes::with_room(alloc, ROOM) {
        Ok(text) => text,
        Err(_) => return Err(ListingFault::NoMemory),
    };
    match push_listing(alloc, &mut text, pool, words, root, listing) {
        Ok(()) => {}
        Err(fault) => return Err(fault),
    }
    match text.finish() {
        Ok(bytes) => Ok(bytes),
        Err(_) => Err(ListingFault::NoMemory),
    }
}

/// The text of what is listed of a file, each shape and each occurrence on a line that ends with a line feed. A line has
/// the number of the shape's record, and for each factor of its accumulated word, innermost first, a space, the datum,
/// `^` and the power.
///
/// A shape above another has a line behind the other's, after two spaces; the line of an occurrence begins with the sign
/// of its accumulated turn. A shape that was met is not entered again, and where occurrences are listed only nodes that
/// have one to give are entered.
pub fn listing_text(alloc: Global, file: &File, listing: Listing) -> Result<Vec<u8>, ListingFault>
    requires sound { IsSound file.now }
    requires within { IsWithinLimits file.now }
    ensures text { IfOk result (λ text. text.items ≡ text_of_listing file.now listing) }
    ensures none_due { OnOk result (listing_due file.now listing ≡ None) }
    ensures refused { IfErr result (IsDue (listing_due file.now listing)) }
{
    let mut pool = match Pool::new(alloc) {
        Ok(pool) => pool,
        Err(_) => return Err(ListingFault::NoMemory),
    };
    let mut words = match Words::new(alloc) {
        Ok(words) => words,
        Err(_) => return Err(ListingFault::NoMemory),
    };
    loaded_text(alloc, file, &mut pool, &mut words, listing)
}
