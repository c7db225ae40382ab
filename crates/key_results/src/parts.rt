//! The relative results of keys, before their nodes are made.
ghost use Rattle.std.specs.Prelude.{◌≡◌, ◌<◌, ◌++◌, ◌∷◌, [], ℕ, All, Bool, Contains, List, length, map, true};
ghost use Rattle.std.specs.Prelude.{IfErr, IfOk, OnOk};
ghost use Rattle.lists.specs.Sameness.{is_empty};
ghost use Rattle.location_words.specs.declared.pair.Pair.{Pair};
ghost use Rattle.location_words.specs.Pairs.{mul as mul_of};
ghost use Rattle.location_words.specs.Faults.{fault_of};
ghost use Rattle.expansion_laws.specs.Trees.{Tree};
ghost use Rattle.expansion_laws.specs.Contexts.{carried as carried_of};
ghost use Rattle.key_results.specs.Words.{moved_word, GrowsTo, IsHeldMover, ReadsWords};
ghost use Rattle.key_results.specs.Faults.{IsDueAmong, IsDueOfWord};
ghost use Rattle.key_results.specs.Derivations.{linked, results_of, AreLinked, ArePlaced};
ghost use Rattle.key_results.specs.Parts.{has_own, joined_parts, results_by, results_in, use_of_part, words_of};
ghost use Rattle.key_results.specs.Parts.{AreHeldParts, AreOfOwn, AreOutgrowths, ArePartsOfOwn};
ghost use Rattle.key_results.specs.Parts.{IsHeldPart, IsJoinedWord};

use crate::derive::{Link, Outcome, Visit};
use crate::fault::ApplyFault;
use crate::words::{IDENTITY, Mover, carried, no_mover};
use location_words::laws::words_are_a_group;
use location_words::{WordId, Words};
use orientation::{Turn, compose};
use shape_pool::UseOf;
use std::alloc::Global;

/// A result: a use of the node that comes of a key.
#[derive(Clone, Copy, Debug, PartialEq, Eq)]
pub struct Part {
    pub turn: Turn,
    pub place: WordId,
    /// The place of the key.
    pub of: usize,
}

/// What comes of a key: a node of its own, which is rebuilt over the parts or stays, or else the parts themselves.
#[derive(Drop)]
pub struct Outgrowth {
    pub own: bool,
    pub parts: Vec<Part>,
}

/// Adds one part, as a link carries it.
fn add_part(
    alloc: Global,
    words: &mut Words,
    mover: Mover,
    link: Link,
    part: Part,
    parts: &mut Vec<Part>,
) -> Result<(), ApplyFault>
    requires mover { IsHeldMover (length words.old) mover }
    requires link { link.place.0 < length words.old }
    requires part { part.place.0 < length words.old }
    ensures added { OnOk result ((word : ℕ → List Pair) (own : ℕ → Tree) → ReadsWords word words.new
        → map (use_of_part word own) parts.new.items
        ≡ map (use_of_part word own) parts.old.items ++ linked word mover link (use_of_part word own part) ∷ []) }
    ensures held { OnOk result ((k : ℕ) → part.of < k → All (IsHeldPart k (length words.old)) parts.old.items
        → All (IsHeldPart k (length words.new)) parts.new.items) }
    ensures own { OnOk result ((is : ℕ → Bool) → is part.of ≡ true → All (λ p. is p.of ≡ true) parts.old.items
        → All (λ p. is p.of ≡ true) parts.new.items) }
    ensures refused { IfErr result (λ fault. (word : ℕ → List Pair) → ReadsWords word words.new
        → IsDueOfWord (fault_of (mul_of (moved_word word mover link.place.0) (word part.place.0))) fault) }
    ensures grows { GrowsTo words.old words.new }
{
    let place = carried(alloc, words, mover, link.place, part.place)?;
    let moved = Part {
        turn: compose(link.turn, part.turn),
        place,
        of: part.of,
    };
    if parts.push(moved).is_err() {
        return Err(ApplyFault::NoMemory);
    }
    Ok(())
}

/// The use of a key's own node.
fn own_part(key: usize) -> Part
    ensures turn { result.turn ≡ Turn.Forward }
    ensures place { result.place.0 ≡ 0 }
    ensures of { result.of ≡ key }
{
    Part {
        turn: Turn::Forward,
        place: IDENTITY,
        of: key,
    }
}

/// Adds the results of a key, as a link to it carries them.
fn add_results(
    alloc: Global,
    words: &mut Words,
    mover: Mover,
    link: Link,
    of_key: &Outgrowth,
    parts: &mut Vec<Part>,
) -> Result<(), ApplyFault>
    requires mover { IsHeldMover (length words.old) mover }
    requires link { link.place.0 < length words.old }
    requires parts { All (λ p. p.place.0 < length words.old) of_key.now.parts.items }
    ensures added { OnOk result ((word : ℕ → List Pair) (own : ℕ → Tree) → ReadsWords word words.new
        → map (use_of_part word own) parts.new.items ≡ map (use_of_part word own) parts.old.items
        ++ map (linked word mover link) (results_by word own link.key of_key.now)) }
    ensures held { OnOk result ((k : ℕ) → link.key < k → All (λ p. p.of < k) of_key.now.parts.items
        → All (IsHeldPart k (length words.old)) parts.old.items
        → All (IsHeldPart k (length words.new)) parts.new.items) }
    ensures own { OnOk result ((is : ℕ → Bool) → (of_key.now.own ≡ true → is link.key ≡ true)
        → All (λ p. is p.of ≡ true) of_key.now.parts.items → All (λ p. is p.of ≡ true) parts.old.items
        → All (λ p. is p.of ≡ true) parts.new.items) }
    ensures refused { IfErr result (λ fault. (word : ℕ → List Pair) (own : ℕ → Tree) → ReadsWords word words.new
        → IsDueAmong (Contains (words_of (map (linked word mover link) (results_by word own link.key of_key.now))))
        fault) }
    ensures grows { GrowsTo words.old words.new }
{
    let _ = words.len();
    if of_key.own {
        return add_part(alloc, words, mover, link, own_part(link.key), parts);
    }
    for part in of_key.parts.as_slice() {
        add_part(alloc, words, mover, link, *part, parts)?;
    }
    Ok(())
}

/// The joined results of what the visits of a key ask for.
fn joined(
    alloc: Global,
    words: &mut Words,
    visit: &Visit,
    earlier: &[Outgrowth],
) -> Result<Vec<Part>, ApplyFault>
    requires mover { IsHeldMover (length words.old) visit.now.mover }
    requires places { All (λ l. l.place.0 < length words.old) visit.now.links.items }
    requires linked { All (λ l. l.key < length earlier.now) visit.now.links.items }
    requires held { AreHeldParts (length words.old) earlier.now }
    requires own { AreOfOwn earlier.now }
    ensures joined { IfOk result (λ parts. (word : ℕ → List Pair) (own : ℕ → Tree) → ReadsWords word words.new
        → map (use_of_part word own) parts.items
        ≡ joined_parts word own visit.now.mover earlier.now visit.now.links.items) }
    ensures held { IfOk result (λ parts. All (IsHeldPart (length earlier.now) (length words.new)) parts.items) }
    ensures own { IfOk result (λ parts. ArePartsOfOwn earlier.now parts.items) }
    ensures refused { IfErr result (λ fault. (word : ℕ → List Pair) (own : ℕ → Tree) → ReadsWords word words.new
        → IsDueAmong (Contains (words_of (joined_parts word own visit.now.mover earlier.now visit.now.links.items)))
        fault) }
    ensures grows { GrowsTo words.old words.new }
{
    let _ = words.len();
    let mut parts = Vec::new(alloc);
    for link in visit.links.as_slice() {
        let of_key = &earlier[link.key];
        add_results(alloc, words, visit.mover, *link, of_key, &mut parts)?;
    }
    Ok(parts)
}

/// Whether a node of its own comes of a key, given the joined results of what it asks for.
fn is_own(prune: bool, visit: &Visit, parts: &[Part]) -> bool
    ensures { result ≡ has_own visit.now.outcome prune (is_empty visit.now.links.items) (is_empty parts.now) }
{
    match visit.outcome {
        Outcome::Joined => false,
        Outcome::Stays => true,
        Outcome::Rebuilt => !(prune && (!visit.links.is_empty() && parts.is_empty())),
    }
}

/// What comes of each key.
pub fn outgrowths_of(
    alloc: Global,
    words: &mut Words,
    prune: bool,
    visits: &[Visit],
) -> Result<Vec<Outgrowth>, ApplyFault>
    requires linked { AreLinked visits.now }
    requires placed { ArePlaced (length words.old) visits.now }
    ensures outgrowths { IfOk result (λ o. (word : ℕ → List Pair) (tree : ℕ → Tree) → ReadsWords word words.new
        → AreOutgrowths word (results_of word tree prune visits.now) prune visits.now o.items) }
    ensures held { IfOk result (λ o. AreHeldParts (length words.new) o.items) }
    ensures own { IfOk result (λ o. AreOfOwn o.items) }
    ensures refused { IfErr result (λ fault. (word : ℕ → List Pair) (tree : ℕ → Tree) → ReadsWords word words.new
        → IsDueAmong (IsJoinedWord word (results_of word tree prune visits.now) visits.now) fault) }
    ensures grows { GrowsTo words.old words.new }
{
    let _ = words.len();
    let mut outgrowths = Vec::new(alloc);
    for visit in visits {
        let parts = joined(alloc, words, visit, outgrowths.as_slice())?;
        let own = is_own(prune, visit, parts.as_slice());
        if outgrowths.push(Outgrowth { own, parts }).is_err() {
            return Err(ApplyFault::NoMemory);
        }
    }
    Ok(outgrowths)
}

/// The results of the root use, whose key has a place.
pub fn root_parts(
    alloc: Global,
    words: &mut Words,
    root: UseOf,
    key: usize,
    outgrowths: &[Outgrowth],
) -> Result<Vec<Part>, ApplyFault>
    requires key { key < length outgrowths.now }
    requires place { root.place.0 < length words.old }
    requires held { AreHeldParts (length words.old) outgrowths.now }
    requires own { AreOfOwn outgrowths.now }
    ensures results { IfOk result (λ parts. (word : ℕ → List Pair) (own : ℕ → Tree) → ReadsWords word words.new
        → map (use_of_part word own) parts.items
        ≡ map (carried_of root.turn (word root.place.0)) (results_in word own outgrowths.now key)) }
    ensures held { IfOk result (λ parts. All (IsHeldPart (length outgrowths.now) (length words.new)) parts.items) }
    ensures own { IfOk result (λ parts. ArePartsOfOwn outgrowths.now parts.items) }
    ensures refused { IfErr result (λ fault. (word : ℕ → List Pair) (own : ℕ → Tree) → ReadsWords word words.new
        → IsDueAmong (Contains (words_of
        (map (carried_of root.turn (word root.place.0)) (results_in word own outgrowths.now key)))) fault) }
    ensures grows { GrowsTo words.old words.new }
{
    words_are_a_group();
    let link = Link {
        turn: root.turn,
        place: root.place,
        key,
    };
    let mut parts = Vec::new(alloc);
    let of_key = &outgrowths[key];
    add_results(alloc, words, no_mover(), link, of_key, &mut parts)?;
    Ok(parts)
}
