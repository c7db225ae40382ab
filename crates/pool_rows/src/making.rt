//! Nodes that are made, over uses that may stand in them.
ghost use Rattle.std.specs.Prelude.{◌≡◌, ◌<◌, ℕ, IsTrue, length};
ghost use Rattle.orientation.specs.Kinds.{IsBelow};
ghost use Rattle.shape_pool.specs.Rows.{kind_at, AllBelow, AllHeld, AllPlaced, HasPlaces};

use crate::parse::Stop;
use crate::scene::{Scene, give_name, node_of, use_of};
use brep_desk::Steps;
use location_words::Words;
use orientation::{Kind, below};
use shape_pool::{NodeId, Pool, PoolFault, UseOf};
use std::alloc::Global;
use std::marker::Brand;
use std::sync::ledger::{Blank, Ledger};

/// Whether a use may stand in a node of a kind.
fn fits(pool: &Pool, words: &Words, kind: Kind, one: UseOf) -> bool
    ensures held { IsTrue result → one.id.0 < length pool.now }
    ensures below { IsTrue result → IsBelow (kind_at pool.now one.id.0) kind }
    ensures place { IsTrue result → one.place.0 < length words.now }
{
    one.id.0 < pool.mark() && below(pool.kind(one.id), kind) && one.place.0 < words.len()
}

/// Whether uses may stand in a node of a kind.
pub(crate) fn are_fit(pool: &Pool, words: &Words, kind: Kind, uses: &[UseOf]) -> bool
    ensures held { IsTrue result → AllHeld pool.now uses.now }
    ensures below { IsTrue result → AllBelow pool.now kind uses.now }
    ensures placed { IsTrue result → AllPlaced (length words.now) uses.now }
{
    for one in uses {
        if !fits(pool, words, kind, *one) {
            return false;
        }
    }
    true
}

/// Rebuilds under a counter of steps of its own.
fn rebuilt<L: Ledger>(
    pool: &mut Pool,
    id: NodeId,
    uses: &[UseOf],
    blank: Blank,
) -> Result<NodeId, PoolFault>
    requires name { blank.name ≡ L.name }
    requires parts { blank.parts ≡ L.parts }
    requires some { 0 < blank.parts }
    requires id { id.0 < length pool.old }
    requires held { AllHeld pool.old uses.now }
    requires below { AllBelow pool.old (kind_at pool.old id.0) uses.now }
    ensures { (n : ℕ) → HasPlaces pool.old n → AllPlaced n uses.now → HasPlaces pool.new n }
{
    let mut steps = Steps::<L>::open(blank);
    let made = pool.rebuild(id, uses, &mut steps)?;
    Ok(made)
}

/// What became of a statement that makes a node.
pub(crate) type Made = Result<NodeId, PoolFault>;

/// Loads the node of a record that isn't loaded.
pub(crate) fn load(
    pool: &mut Pool,
    words: &Words,
    kind: Kind,
    origin: u32,
    uses: &[UseOf],
) -> Result<Made, Stop>
    requires { HasPlaces pool.old (length words.now) }
    ensures { HasPlaces pool.new (length words.now) }
{
    if origin == 0 || pool.named(origin).is_some() {
        return Err(Stop::Unreadable);
    }
    if !are_fit(pool, words, kind, uses) {
        return Err(Stop::Unreadable);
    }
    Ok(pool.load(kind, origin, uses))
}

/// Holds a compound that stands for no record.
pub(crate) fn wrap(pool: &mut Pool, words: &Words, uses: &[UseOf]) -> Result<Made, Stop>
    requires { HasPlaces pool.old (length words.now) }
    ensures { HasPlaces pool.new (length words.now) }
{
    if !are_fit(pool, words, Kind::Co, uses) {
        return Err(Stop::Unreadable);
    }
    Ok(pool.wrap(uses))
}

/// Rebuilds a node of a kind.
fn rebuild(
    pool: &mut Pool,
    words: &Words,
    kind: Kind,
    id: NodeId,
    uses: &[UseOf],
) -> Result<Made, Stop>
    requires { HasPlaces pool.old (length words.now) }
    ensures { HasPlaces pool.new (length words.now) }
{
    if id.0 >= pool.mark() || pool.kind(id) != kind {
        return Err(Stop::Unreadable);
    }
    if !are_fit(pool, words, pool.kind(id), uses) {
        return Err(Stop::Unreadable);
    }
    Ok(rebuilt::<Brand>(pool, id, uses, Blank::new(1)))
}

/// Makes the node of a name, and gives it the name where this isn't its record's number.
pub(crate) fn make(
    alloc: Global,
    words: &Words,
    scene: &mut Scene,
    kind: Kind,
    name: &str,
    uses: &[UseOf],
) -> Result<Made, Stop>
    requires { HasPlaces scene.old.pool (length words.now) }
    ensures { HasPlaces scene.new.pool (length words.now) }
{
    if let Ok(origin) = name.parse::<u32>() {
        return load(&mut scene.pool, words, kind, origin, uses);
    }
    let made = match name.strip_suffix('\'') {
        Some(old) => {
            let id = node_of(scene, old)?;
            rebuild(&mut scene.pool, words, kind, id, uses)?
        }
        None => wrap(&mut scene.pool, words, uses)?,
    };
    if let Ok(id) = made {
        give_name(alloc, &mut scene.names, name, id)?;
    }
    Ok(made)
}

/// The uses of a text.
pub(crate) fn uses_of(
    alloc: Global,
    scene: &Scene,
    words: &Words,
    text: &str,
) -> Result<Vec<UseOf>, Stop> {
    let mut uses = Vec::new(alloc);
    for one in text.split_whitespace() {
        uses.push(use_of(alloc, scene, words, one)?)?;
    }
    Ok(uses)
}
