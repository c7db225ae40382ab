//! Making nodes over held ones.
ghost use Rattle.std.specs.Prelude.{◌≡◌, ◌<◌, ◌≤◌, ℕ, suc, max, All, length, IfOk, IfErr};
ghost use Rattle.shape_pool.specs.Nodes.{node_id, node_kind, node_origin, node_uses};
ghost use Rattle.shape_pool.specs.Rows.{most_depth, most_nodes};
ghost use Rattle.shape_pool.specs.Held.{stored_depth, stored_depth_over, AreUses, HaveIds};
ghost use Rattle.shape_pool.specs.Held.{IsIndex, IsNext, IsNextLike, IsOver, IsOverLike, IsTooDeep};

use crate::fault::{MOST_DEPTH, PoolFault};
use crate::held::Held;
use crate::held_nodes::HeldNodes;
use crate::node::{Node, NodeId, NodeUse, UseOf};
use orientation::Kind;
use std::alloc::AllocError;
use std::rc::Rc;

/// The depth of a tree over these uses.
pub(crate) fn depth_over(held: &HeldNodes, uses: &[UseOf]) -> u32
    requires held { All (λ u. u.id.0 < length held.now) uses.now }
    requires shallow { (i : ℕ) → i < length held.now → stored_depth held.now i ≤ most_depth }
    ensures depth { result ≡ stored_depth_over held.now uses.now }
    ensures shallow { result ≤ suc most_depth }
{
    let mut deepest = 0;
    for u in uses {
        deepest = max_of(deepest, held.depth(u.id.0 as usize));
    }
    deepest + 1
}

/// The greater of two numbers.
fn max_of(a: u32, b: u32) -> u32
    ensures { result ≡ max a b }
{
    if a < b { b } else { a }
}

/// The uses with the held nodes that they name.
pub(crate) fn shared_uses(held: &HeldNodes, uses: &[UseOf]) -> Result<Vec<NodeUse>, AllocError>
    requires held { All (λ u. u.id.0 < length held.now) uses.now }
    requires ids { HaveIds held.now }
    ensures { IfOk result (λ v. AreUses held.now uses.now v.items) }
{
    let mut shared = Vec::with_capacity(held.allocator(), uses.len())?;
    for u in uses {
        let node = held.node(u.id.0 as usize).clone()?;
        shared.push(NodeUse {
            turn: u.turn,
            place: u.place,
            node,
        })?;
    }
    Ok(shared)
}

/// A new node over held ones, with the next number.
pub(crate) fn new_node(
    held: &HeldNodes,
    kind: Kind,
    origin: u32,
    uses: &[UseOf],
) -> Result<Rc<Node>, AllocError>
    requires held { All (λ u. u.id.0 < length held.now) uses.now }
    requires ids { HaveIds held.now }
    requires few { length held.now ≤ most_nodes }
    ensures { IfOk result (λ n. IsNext held.now kind origin uses.now n.value) }
{
    let node = Node {
        id: NodeId(held.len() as u32),
        kind,
        origin,
        uses: shared_uses(held, uses)?,
    };
    Ok(Rc::new(held.allocator(), node)?)
}

/// A held node's kind and origin over other uses, with the next number.
pub(crate) fn changed_node(
    held: &HeldNodes,
    id: NodeId,
    uses: &[UseOf],
) -> Result<Rc<Node>, AllocError>
    requires id { id.0 < length held.now }
    requires held { All (λ u. u.id.0 < length held.now) uses.now }
    requires ids { HaveIds held.now }
    requires few { length held.now ≤ most_nodes }
    ensures { IfOk result (λ n. IsNextLike held.now id.0 uses.now n.value) }
{
    let shared = shared_uses(held, uses)?;
    let own = with_uses(held.node(id.0 as usize), NodeId(held.len() as u32), shared)?;
    Ok(own)
}

/// A shared node made its own by copy on write, with its uses and its number exchanged.
fn with_uses(node: &Rc<Node>, id: NodeId, uses: Vec<NodeUse>) -> Result<Rc<Node>, AllocError>
    ensures id { IfOk result (λ n. node_id n.value ≡ id.0) }
    ensures kind { IfOk result (λ n. node_kind n.value ≡ node_kind node.now.value) }
    ensures origin { IfOk result (λ n. node_origin n.value ≡ node_origin node.now.value) }
    ensures uses { IfOk result (λ n. node_uses n.value ≡ uses.items) }
{
    let mut own = node.clone()?;
    let made = Rc::make_mut(&mut own)?;
    made.id = id;
    made.uses = uses;
    Ok(own)
}

/// The depth over these uses, if it is within the limit.
fn depth_within(held: &HeldNodes, uses: &[UseOf]) -> Result<u32, PoolFault>
    requires index { IsIndex held.now }
    requires held { All (λ u. u.id.0 < length held.now) uses.now }
    ensures ok { IfOk result (λ depth. (depth ≡ stored_depth_over held.now uses.now) × (depth ≤ most_depth)) }
    ensures err { IfErr result (λ fault. IsTooDeep (stored_depth_over held.now uses.now) fault) }
{
    let depth = depth_over(held, uses);
    if depth > MOST_DEPTH {
        return Err(PoolFault::TooDeep(depth));
    }
    Ok(depth)
}

/// A new node over held ones beside its depth.
pub(crate) fn held_over(
    held: &HeldNodes,
    kind: Kind,
    origin: u32,
    uses: &[UseOf],
) -> Result<Held, PoolFault>
    requires index { IsIndex held.now }
    requires held { All (λ u. u.id.0 < length held.now) uses.now }
    ensures ok { IfOk result (λ h. IsOver held.now kind origin uses.now h) }
    ensures err { IfErr result (λ fault. IsTooDeep (stored_depth_over held.now uses.now) fault) }
{
    let depth = depth_within(held, uses)?;
    match new_node(held, kind, origin, uses) {
        Ok(node) => Ok(Held { node, depth }),
        Err(_) => Err(PoolFault::NoMemory),
    }
}

/// A held node's kind and origin over other uses, beside its depth.
pub(crate) fn held_changed(held: &HeldNodes, id: NodeId, uses: &[UseOf]) -> Result<Held, PoolFault>
    requires index { IsIndex held.now }
    requires id { id.0 < length held.now }
    requires held { All (λ u. u.id.0 < length held.now) uses.now }
    ensures ok { IfOk result (λ h. IsOverLike held.now id.0 uses.now h) }
    ensures err { IfErr result (λ fault. IsTooDeep (stored_depth_over held.now uses.now) fault) }
{
    let depth = depth_within(held, uses)?;
    match changed_node(held, id, uses) {
        Ok(node) => Ok(Held { node, depth }),
        Err(_) => Err(PoolFault::NoMemory),
    }
}
