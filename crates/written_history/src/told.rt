//! A history in numbers.
ghost use Rattle.std.specs.Prelude.{◌≡◌, ◌<◌, ◌^◌, All, IfOk, OnOk, length, map, nat_lt, reverse};
ghost use Rattle.lists.specs.Distinct.{IsDistinct};
ghost use Rattle.lists.specs.Gathering.{Adds, Gathers};
ghost use Rattle.history_text.specs.HistoryText.{ArePairs, Ascend};
ghost use Rattle.shape_pool.specs.Rows.{origin_at};
ghost use Rattle.step_history.specs.Numbered.{AreHeld, ArePairsHeld, IsHeld};
ghost use Rattle.written_history.specs.Numbered.{IsChangeOf, IsInNumbers, IsOriginOf, IsPairOf};
ghost use Rattle.written_history.specs.Numbered.{AreSmall, StaySmall};

use crate::ascending::{ascending_numbers, ascending_pairs};
use brep_tokens::Numbers;
use history_text::{HistoryFile, NumberPairs};
use shape_pool::{NodeId, Pool};
use std::alloc::{AllocError, Global};
use step_history::StepHistory;
use written_order::Order;

/// The origin of each node of an order, from the last one on.
fn origins_of(alloc: Global, pool: &Pool, order: &Order) -> Result<Numbers, AllocError>
    requires { All (λ i. i < length pool.now) order.now.numbers }
    ensures are { IfOk result (λ origins. origins ≡ reverse (map (origin_at pool.now) order.now.numbers)) }
    ensures small { IfOk result AreSmall }
    ensures few { IfOk result (λ origins. length origins < 2 ^ 32) }
{
    let ids = order.ids();
    let mut origins = Numbers::new(alloc);
    for place in 0..order.len() as usize {
        origins.push(u64::from(pool.origin(ids[ids.len() - place - 1])))?;
    }
    Ok(origins)
}

/// Adds the numbers of a pair of nodes, where the second one is written.
fn add_pair(
    pool: &Pool,
    order: &Order,
    pair: (NodeId, NodeId),
    pairs: &mut Vec<(u64, u64)>,
) -> Result<(), AllocError>
    requires held { pair.0.0 < length pool.now }
    requires once { IsDistinct order.now.numbers }
    ensures adds { OnOk result (Adds (IsPairOf pool.now order.now.numbers pair) pairs.old.items pairs.new.items) }
    ensures small { OnOk result (StaySmall pairs.old.items pairs.new.items) }
{
    if let Some(number) = order.number(pair.1) {
        pairs.push((u64::from(pool.origin(pair.0)), u64::from(number)))?;
    }
    Ok(())
}

/// Adds the numbers of a pair of different nodes.
fn add_change(
    pool: &Pool,
    order: &Order,
    pair: (NodeId, NodeId),
    pairs: &mut Vec<(u64, u64)>,
) -> Result<(), AllocError>
    requires held { pair.0.0 < length pool.now }
    requires once { IsDistinct order.now.numbers }
    ensures adds { OnOk result (Adds (IsChangeOf pool.now order.now.numbers pair) pairs.old.items pairs.new.items) }
    ensures small { OnOk result (StaySmall pairs.old.items pairs.new.items) }
{
    if pair.0.0 == pair.1.0 {
        return Ok(());
    }
    add_pair(pool, order, pair, pairs)?;
    Ok(())
}

/// The numbers of pairs of different nodes.
fn changes_of(
    alloc: Global,
    pool: &Pool,
    order: &Order,
    images: &[(NodeId, NodeId)],
) -> Result<NumberPairs, AllocError>
    requires held { ArePairsHeld pool.now images.now }
    requires once { IsDistinct order.now.numbers }
    ensures are { IfOk result (λ pairs. Gathers (IsChangeOf pool.now order.now.numbers) images.now pairs) }
    ensures pairs { IfOk result (ArePairs (length order.now.numbers)) }
{
    let mut pairs = Vec::new(alloc);
    for pair in images {
        add_change(pool, order, *pair, &mut pairs)?;
    }
    Ok(ascending_pairs(pairs))
}

/// The numbers of pairs of nodes.
fn pairs_of(
    alloc: Global,
    pool: &Pool,
    order: &Order,
    generated: &[(NodeId, NodeId)],
) -> Result<NumberPairs, AllocError>
    requires held { ArePairsHeld pool.now generated.now }
    requires once { IsDistinct order.now.numbers }
    ensures are { IfOk result (λ pairs. Gathers (IsPairOf pool.now order.now.numbers) generated.now pairs) }
    ensures pairs { IfOk result (ArePairs (length order.now.numbers)) }
{
    let mut pairs = Vec::new(alloc);
    for pair in generated {
        add_pair(pool, order, *pair, &mut pairs)?;
    }
    Ok(ascending_pairs(pairs))
}

/// The origins of nodes.
fn numbers_of(alloc: Global, pool: &Pool, removed: &[NodeId]) -> Result<Numbers, AllocError>
    requires { AreHeld pool.now removed.now }
    ensures are { IfOk result (λ numbers. Gathers (IsOriginOf pool.now) removed.now numbers) }
    ensures ascend { IfOk result (Ascend nat_lt) }
    ensures small { IfOk result AreSmall }
{
    let mut numbers = Vec::new(alloc);
    for id in removed {
        numbers.push(u64::from(pool.origin(*id)))?;
    }
    Ok(ascending_numbers(numbers))
}

/// A history in numbers: each image that is another node, each generated pair and each removed node, where the written
/// nodes stand in an order.
pub fn history_in_numbers(
    alloc: Global,
    pool: &Pool,
    order: &Order,
    history: &StepHistory,
) -> Result<HistoryFile, AllocError>
    requires order { All (λ i. i < length pool.now) order.now.numbers }
    requires once { IsDistinct order.now.numbers }
    requires held { IsHeld pool.now history.now }
    ensures { IfOk result (IsInNumbers pool.now order.now.numbers history.now) }
{
    let origins = origins_of(alloc, pool, order)?;
    let modified = changes_of(alloc, pool, order, history.images.as_slice())?;
    let generated = pairs_of(alloc, pool, order, history.generated.as_slice())?;
    let removed = numbers_of(alloc, pool, history.removed.as_slice())?;
    Ok(HistoryFile {
        origins,
        modified,
        generated,
        removed,
    })
}
