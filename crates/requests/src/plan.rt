//! The plan of a step.
ghost use Rattle.std.specs.Prelude.{◌≡◌, ◌<◌, All, Contains, IfNone, IfOk, IfSome, List, Some, length, map, slice_get};
ghost use Rattle.lists.specs.Distinct.{IsDistinct};
ghost use Rattle.requests.specs.Numbered.{last_allowed, live_at, match_at};
ghost use Rattle.requests.specs.Reached.{met_at};
ghost use Rattle.requests.specs.Plans.{a_plan, ids_of, planned_at, PlannedNode};
ghost use Rattle.requests.specs.declared.request.Request.{Request as SpecRequest};

use crate::live::last_allowing;
use crate::reached::met;
use crate::request::Request;
use crate::table::RequestTable;
use indexmap::IndexSet;
use location_words::WordId;
use orientation::{Rule, Turn};
use shape_pool::NodeId;
use std::alloc::{AllocError, Global};
use std::marker::Model;

/// A node of a plan.
#[derive(Drop)]
struct Planned {
    id: u32,
    live: Vec<Request>,
    place: bool,
    turn: bool,
}

/// What a step goes by: the nodes that its graph reaches from the root, each after all that it reaches, so that the
/// root is the last; of each node its live requests, and whether the graph reaches from it, itself included, a node
/// with a live request that has a place, and one that has a turn; and the rule of the step.
///
/// Nodes have places in it, counted from 0 in the order of finishing.
#[derive(Drop)]
pub struct Plan {
    ids: IndexSet<u32>,
    nodes: Vec<Planned>,
    rule: Rule,
}

impl Model for Plan {
    ghost use Rattle.std.specs.Prelude.{◌≡◌, map};
    ghost use Rattle.requests.specs.Plans.{a_plan, ids_of, StepPlan};
    ghost use Rattle.requests.specs.PlanView.{node_of};

    ghost Value = { StepPlan };

    ghost view = { λ p. a_plan (map node_of p.nodes.items) p.rule };

    ghost invariant = { λ p. p.ids.keys ≡ ids_of (map node_of p.nodes.items) };
}

impl Plan {
    /// How many nodes there are.
    pub fn len(&self) -> usize
        ensures { result ≡ length self.now.nodes }
    {
        self.nodes.len()
    }

    /// The rule of the step.
    pub fn rule(&self) -> Rule
        ensures { result ≡ self.now.rule }
    {
        self.rule
    }

    /// The number of the node at a place.
    pub fn id(&self, at: usize) -> NodeId
        requires { at < length self.now.nodes }
        ensures { (p : PlannedNode) → slice_get self.now.nodes at ≡ Some p → result.0 ≡ p.id }
    {
        NodeId(self.nodes[at].id)
    }

    /// The live requests of the node at a place, in the order given.
    pub fn live(&self, at: usize) -> &[Request]
        requires { at < length self.now.nodes }
        ensures { (p : PlannedNode) → slice_get self.now.nodes at ≡ Some p → result.now ≡ p.live }
    {
        self.nodes[at].live.as_slice()
    }

    /// Whether the graph reaches, from the node at a place, a node with a live request that has a place.
    pub fn reaches_place(&self, at: usize) -> bool
        requires { at < length self.now.nodes }
        ensures { (p : PlannedNode) → slice_get self.now.nodes at ≡ Some p → result ≡ p.place }
    {
        self.nodes[at].place
    }

    /// Whether the graph reaches, from the node at a place, a node with a live request that has a turn.
    pub fn reaches_turn(&self, at: usize) -> bool
        requires { at < length self.now.nodes }
        ensures { (p : PlannedNode) → slice_get self.now.nodes at ≡ Some p → result ≡ p.turn }
    {
        self.nodes[at].turn
    }

    /// The place of a node, and none where the graph doesn't reach it.
    pub fn place_of(&self, id: NodeId) -> Option<usize>
        ensures some { IfSome result (λ at. slice_get (ids_of self.now.nodes) at ≡ Some id.0) }
        ensures none { IfNone result (¬ Contains (ids_of self.now.nodes) id.0) }
    {
        self.ids.get_index_of(&id.0)
    }

    /// The match of occurrences of the node at a place, under a turn and the number of a word: the last live request
    /// that allows them.
    pub fn find(&self, at: usize, turn: Turn, word: WordId) -> Option<Request>
        requires { at < length self.now.nodes }
        ensures live { (p : PlannedNode) → slice_get self.now.nodes at ≡ Some p
            → result ≡ last_allowed p.live turn word.0 }
        ensures matched { (p : PlannedNode) (given : List SpecRequest) → slice_get self.now.nodes at ≡ Some p
            → p.live ≡ live_at given p.id → result ≡ match_at given p.id turn word.0 }
    {
        last_allowing(self.live(at), turn, word)
    }
}

/// A copy of live requests.
fn copied(alloc: Global, live: &[Request]) -> Result<Vec<Request>, AllocError>
    ensures { IfOk result (λ copy. copy.items ≡ live.now) }
{
    let mut copy = Vec::new(alloc);
    copy.extend_from_slice(live)?;
    Ok(copy)
}

/// The plan of the nodes that were met at these places, by the marks of the places.
pub(crate) fn plan_of(
    table: &RequestTable,
    nodes: &IndexSet<u32>,
    order: &[u32],
    places: &[bool],
    turns: &[bool],
) -> Result<Plan, AllocError>
    requires within { All (λ p. p < length nodes.now.keys) order.now }
    requires distinct { IsDistinct (map (met_at nodes.now.keys) order.now) }
    requires places { length places.now ≡ length nodes.now.keys }
    requires turns { length turns.now ≡ length nodes.now.keys }
    ensures { IfOk result (λ plan. plan ≡ a_plan
        (map (planned_at table.now.requests nodes.now.keys places.now turns.now) order.now) table.now.rule) }
{
    let alloc = table.allocator();
    let mut ids = IndexSet::new(alloc);
    let mut planned = Vec::new(alloc);
    for p in order {
        let id = met(nodes, *p as usize);
        ids.insert(id.0)?;
        planned.push(Planned {
            id: id.0,
            live: copied(alloc, table.live(id))?,
            place: places[*p as usize],
            turn: turns[*p as usize],
        })?;
    }
    Ok(Plan {
        ids,
        nodes: planned,
        rule: table.rule(),
    })
}
