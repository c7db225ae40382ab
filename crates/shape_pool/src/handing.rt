//! Handing nodes in: each finds the held node of its origin and uses, or goes last.
ghost use Rattle.std.specs.Prelude.{◌≡◌, ◌≢◌, ◌<◌, ◌≤◌, ◌+◌, ℕ, Err, length, IfOk, IfErr, OnErr, OnOk};
ghost use Rattle.orientation.specs.declared.kind.Kind.TheVariants.{Co};
ghost use Rattle.shape_pool.specs.Nodes.{node_id, node_origin};
ghost use Rattle.shape_pool.specs.Rows.{depth_over, kind_at, most_depth, most_nodes, origin_at, AllBelow, AllHeld};
ghost use Rattle.shape_pool.specs.Calls.{IsHandedIn, IsHandedInLike, IsLoaded, IsRefused};
ghost use Rattle.shape_pool.specs.Held.{rows_of, HandsIn, IsIndex, IsKnown, IsOneTooMany};

use crate::fault::{MOST_NODES, PoolFault};
use crate::held::{Held, Made};
use crate::making::{held_changed, held_over};
use crate::node::{NodeId, UseOf};
use crate::stock::Stock;
use orientation::Kind;

/// The number of the node of a kind and of an origin that isn't loaded, which goes last.
pub(crate) fn hold_loaded(
    stock: &mut Stock,
    kind: Kind,
    origin: u32,
    uses: &[UseOf],
) -> Result<NodeId, PoolFault>
    requires index { IsIndex stock.old }
    requires held { AllHeld (rows_of stock.old) uses.now }
    requires below { AllBelow (rows_of stock.old) kind uses.now }
    requires origin { 0 < origin }
    requires new { ¬ IsLoaded (rows_of stock.old) origin }
    ensures index { IsIndex stock.new }
    ensures handed { IfOk result (λ id. IsHandedIn (rows_of stock.old) kind origin uses.now (rows_of stock.new) id.0) }
    ensures err { OnErr result (stock.new ≡ stock.old) }
    ensures within { OnOk result (depth_over (rows_of stock.old) uses.now ≤ most_depth) }
    ensures refused { IfErr result (IsRefused (rows_of stock.old) origin uses.now) }
{
    let node = held_over(stock.held(), kind, origin, uses)?;
    let id = load_in(stock, node)?;
    Ok(id)
}

/// The number of the compound over held nodes that stands for no record, which goes last where it isn't held.
pub(crate) fn hold_made(stock: &mut Stock, uses: &[UseOf]) -> Result<NodeId, PoolFault>
    requires index { IsIndex stock.old }
    requires held { AllHeld (rows_of stock.old) uses.now }
    ensures index { IsIndex stock.new }
    ensures handed { IfOk result (λ id. IsHandedIn (rows_of stock.old) Co 0 uses.now (rows_of stock.new) id.0) }
    ensures err { OnErr result (stock.new ≡ stock.old) }
    ensures within { OnOk result (depth_over (rows_of stock.old) uses.now ≤ most_depth) }
    ensures refused { IfErr result (IsRefused (rows_of stock.old) 0 uses.now) }
{
    let node = held_over(stock.held(), Kind::Co, 0, uses)?;
    let id = hand_in(stock, node)?;
    Ok(id)
}

/// The number of a held node's kind and origin over other uses.
pub(crate) fn hold_changed(
    stock: &mut Stock,
    id: NodeId,
    uses: &[UseOf],
) -> Result<NodeId, PoolFault>
    requires index { IsIndex stock.old }
    requires id { id.0 < length stock.old }
    requires held { AllHeld (rows_of stock.old) uses.now }
    requires below { AllBelow (rows_of stock.old) (kind_at (rows_of stock.old) id.0) uses.now }
    ensures index { IsIndex stock.new }
    ensures handed { IfOk result (λ made. IsHandedInLike (rows_of stock.old) id.0 uses.now (rows_of stock.new) made.0) }
    ensures err { OnErr result (stock.new ≡ stock.old) }
    ensures within { OnOk result (depth_over (rows_of stock.old) uses.now ≤ most_depth) }
    ensures refused { IfErr result (IsRefused (rows_of stock.old) (origin_at (rows_of stock.old) id.0) uses.now) }
{
    let node = held_changed(stock.held(), id, uses)?;
    let made = hand_in(stock, node)?;
    Ok(made)
}

/// The number of a node, which goes last where none of its origin and uses is held.
fn hand_in(stock: &mut Stock, node: Held) -> Result<NodeId, PoolFault>
    requires few { length stock.old ≤ most_nodes }
    requires id { node_id node.node.value ≡ length stock.old }
    requires depth { node.depth ≤ most_depth }
    requires known { IsKnown (rows_of stock.old) (node_origin node.node.value) }
    ensures ok { IfOk result (λ id. HandsIn stock.old node stock.new id.0) }
    ensures err { OnErr result (stock.new ≡ stock.old) }
    ensures many { (n : ℕ) → result ≡ Err (PoolFault.TooMany n) → IsOneTooMany stock.old node.node.value n }
    ensures deep { (n : ℕ) → result ≢ Err (PoolFault.TooDeep n) }
{
    let Ok(shared) = node.node.clone() else {
        return Err(PoolFault::NoMemory);
    };
    let key = Made { node: shared };
    if let Some(id) = stock.find(&key) {
        return Ok(id);
    }
    let count = stock.held().len();
    if count >= MOST_NODES {
        return Err(PoolFault::TooMany(count as u64 + 1));
    }
    match stock.add_made(node, key) {
        Ok(()) => Ok(NodeId(count as u32)),
        Err(_) => Err(PoolFault::NoMemory),
    }
}

/// The number of a node of an origin that isn't loaded, which goes last.
fn load_in(stock: &mut Stock, node: Held) -> Result<NodeId, PoolFault>
    requires few { length stock.old ≤ most_nodes }
    requires depth { node.depth ≤ most_depth }
    requires origin { 0 < node_origin node.node.value }
    requires new { ¬ IsLoaded (rows_of stock.old) (node_origin node.node.value) }
    ensures ok { IfOk result (λ id. HandsIn stock.old node stock.new id.0) }
    ensures err { OnErr result (stock.new ≡ stock.old) }
    ensures many { (n : ℕ) → result ≡ Err (PoolFault.TooMany n) → IsOneTooMany stock.old node.node.value n }
    ensures deep { (n : ℕ) → result ≢ Err (PoolFault.TooDeep n) }
{
    let count = stock.held().len();
    if count >= MOST_NODES {
        return Err(PoolFault::TooMany(count as u64 + 1));
    }
    match stock.add_loaded(node) {
        Ok(()) => Ok(NodeId(count as u32)),
        Err(_) => Err(PoolFault::NoMemory),
    }
}
