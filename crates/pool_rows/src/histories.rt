//! Rows about histories.
ghost use Rattle.std.specs.Prelude.{◌<◌, IfOk, OnOk, length};
ghost use Rattle.step_history.specs.Numbered.{ArePairsHeld, IsHeld};

use crate::parse::{Stop, halves, words_of};
use crate::pools::scene_of;
use crate::scene::{Scene, node_of, put_name};
use history_merge::{chain, start};
use shape_pool::{IdPairs, Ids, NodeId};
use std::alloc::Global;
use step_history::{StepHistory, of_step};

/// Adds the pair of `3>2`, which is that of a node and itself where it is `3`.
fn add_pair(scene: &Scene, text: &str, pairs: &mut IdPairs) -> Result<(), Stop>
    requires { ArePairsHeld scene.now.pool pairs.old }
    ensures { ArePairsHeld scene.now.pool pairs.new }
{
    let (first, later) = halves(text, '>');
    let second = if later.is_empty() { first } else { later };
    let a = node_of(scene, first)?;
    let b = node_of(scene, second)?;
    pairs.push((a, b))?;
    Ok(())
}

/// The pairs of a text.
fn pairs_of(alloc: Global, scene: &Scene, text: &str) -> Result<IdPairs, Stop>
    ensures { IfOk result (ArePairsHeld scene.now.pool) }
{
    let mut pairs = IdPairs::new(alloc);
    for one in text.split_whitespace() {
        add_pair(scene, one, &mut pairs)?;
    }
    Ok(pairs)
}

/// The history of a step between roots, from a text of its images, `/`, and what took the place of replaced nodes.
fn step_of(
    alloc: Global,
    scene: &Scene,
    before: NodeId,
    after: NodeId,
    text: &str,
) -> Result<StepHistory, Stop>
    requires before { before.0 < length scene.now.pool }
    requires after { after.0 < length scene.now.pool }
    ensures { IfOk result (IsHeld scene.now.pool) }
{
    let (first, second) = halves(text, '/');
    let images = pairs_of(alloc, scene, first)?;
    let replaced = pairs_of(alloc, scene, second)?;
    let history = of_step(&scene.pool, before, after, &images, &replaced)?;
    Ok(history)
}

/// A history from a text of its images, `/`, and what was generated. Nothing is removed in it.
fn history_of(alloc: Global, scene: &Scene, text: &str) -> Result<StepHistory, Stop>
    ensures { IfOk result (IsHeld scene.now.pool) }
{
    let (first, second) = halves(text, '/');
    let images = pairs_of(alloc, scene, first)?;
    let generated = pairs_of(alloc, scene, second)?;
    Ok(StepHistory {
        images,
        generated,
        removed: Ids::new(alloc),
    })
}

/// Writes pairs, that of a node and itself by its name alone.
fn put_pairs(out: &mut String, scene: &Scene, pairs: &IdPairs) -> Result<(), Stop> {
    for pair in pairs.as_slice() {
        out.push_str(" ")?;
        put_name(out, scene, pair.0)?;
        if pair.0 != pair.1 {
            out.push_str(">")?;
            put_name(out, scene, pair.1)?;
        }
    }
    Ok(())
}

/// Writes nodes.
fn put_ids(out: &mut String, scene: &Scene, ids: &Ids) -> Result<(), Stop> {
    for id in ids.as_slice() {
        out.push_str(" ")?;
        put_name(out, scene, *id)?;
    }
    Ok(())
}

/// The text of a history.
fn told(alloc: Global, scene: &Scene, history: &StepHistory) -> Result<String, Stop> {
    let mut out = String::new(alloc);
    out.push_str("images")?;
    put_pairs(&mut out, scene, &history.images)?;
    out.push_str("; generated")?;
    put_pairs(&mut out, scene, &history.generated)?;
    out.push_str("; removed")?;
    put_ids(&mut out, scene, &history.removed)?;
    Ok(out)
}

/// `step 1 1' : 3>2 2 / 3>2`: the history of a step from a root to another.
pub(crate) fn step_row(alloc: Global, held: &str, rest: &str) -> Result<String, Stop> {
    let words = words_of(alloc, held, "")?;
    let scene = scene_of(alloc, &words, held)?;
    let (roots, text) = halves(rest, ':');
    let (first, last) = halves(roots, ' ');
    let before = node_of(&scene, first)?;
    let after = node_of(&scene, last)?;
    let history = step_of(alloc, &scene, before, after, text)?;
    told(alloc, &scene, &history)
}

/// `start 1`: the history over no step.
pub(crate) fn start_row(alloc: Global, held: &str, rest: &str) -> Result<String, Stop> {
    let words = words_of(alloc, held, "")?;
    let scene = scene_of(alloc, &words, held)?;
    let root = node_of(&scene, rest)?;
    let history = start(&scene.pool, root)?;
    told(alloc, &scene, &history)
}

/// `chain 1 1'' : 3>2 / 3>5 ; 2 5>6 /`: one history after another.
pub(crate) fn chain_row(alloc: Global, held: &str, rest: &str) -> Result<String, Stop> {
    let words = words_of(alloc, held, "")?;
    let scene = scene_of(alloc, &words, held)?;
    let (roots, texts) = halves(rest, ':');
    let (before, after) = halves(roots, ' ');
    let first = node_of(&scene, before)?;
    let last = node_of(&scene, after)?;
    let (one, other) = halves(texts, ';');
    let earlier = history_of(alloc, &scene, one)?;
    let later = history_of(alloc, &scene, other)?;
    let history = chain(&scene.pool, first, last, &earlier, &later)?;
    told(alloc, &scene, &history)
}

/// Steps in a row from a root: the root that was reached, and the history so far.
#[derive(Drop)]
struct Row {
    root: NodeId,
    history: StepHistory,
}

/// One step more, from a text of its root, `:` and the step.
fn and_then(alloc: Global, scene: &Scene, first: NodeId, row: &Row, text: &str) -> Result<Row, Stop>
    requires first { first.0 < length scene.now.pool }
    requires root { row.now.root.0 < length scene.now.pool }
    requires held { IsHeld scene.now.pool row.now.history }
    ensures root { IfOk result (λ row. row.root.0 < length scene.now.pool) }
    ensures held { IfOk result (λ row. IsHeld scene.now.pool row.history) }
{
    let (name, step) = halves(text, ':');
    let root = node_of(scene, name)?;
    let later = step_of(alloc, scene, row.root, root, step)?;
    let history = chain(&scene.pool, first, root, &row.history, &later)?;
    Ok(Row { root, history })
}

/// The steps of a text in a row from a root.
fn in_row(alloc: Global, scene: &Scene, first: NodeId, texts: &str) -> Result<StepHistory, Stop>
    requires { first.0 < length scene.now.pool }
{
    let mut row = Row {
        root: first,
        history: start(&scene.pool, first)?,
    };
    for text in texts.split(';') {
        row = and_then(alloc, scene, first, &row, text)?;
    }
    Ok(row.history)
}

/// `steps 1; 1' : 3>2 2 / 3>2; 1'' : 2`: the history over steps in a row.
pub(crate) fn steps_row(alloc: Global, held: &str, rest: &str) -> Result<String, Stop> {
    let words = words_of(alloc, held, "")?;
    let scene = scene_of(alloc, &words, held)?;
    let (name, texts) = halves(rest, ';');
    let first = node_of(&scene, name)?;
    let history = in_row(alloc, &scene, first, texts)?;
    told(alloc, &scene, &history)
}
