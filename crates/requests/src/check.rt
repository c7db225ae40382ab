//! The check of a step.
ghost use Rattle.std.specs.Prelude.{◌≡◌, ◌<◌, IfErr, IfOk, length};
ghost use Rattle.lists.specs.Distinct.{IsDistinct};
ghost use Rattle.graph_walks.specs.Graph.{EndsAreNodes};
ghost use Rattle.graph_walks.specs.Search.{IsCycleFrom, IsOrderFrom};
ghost use Rattle.requests.specs.Numbered.{AreHeldIn};
ghost use Rattle.requests.specs.Reached.{IsReached};
ghost use Rattle.requests.specs.Plans.{IsDueFault, IsPlan, IsPlannedBy};

use crate::asking::Part;
use crate::fault::CheckFault;
use crate::plan::{Plan, plan_of};
use crate::reached::{Reached, reached_from};
use crate::reaching::reaching;
use crate::table::RequestTable;
use crate::walk::origins_of;
use expansion_laws::laws::{cycles_are_determined, numbers_carry};
use graph_walks::{Found, ranks, search};
use shape_pool::{Pool, UseOf};
use std::alloc::AllocError;

/// The greatest rank of a step that is carried out.
const MOST_RANK: usize = 1_024;

impl RequestTable {
    /// The plan of the step from a root, or why the step isn't carried out.
    ///
    /// It is a fault where the step's graph has a cycle that the root reaches, and where it has none, but a walk of
    /// more than 1,024 edges. Only what the root reaches is looked at.
    pub fn check(&self, pool: &Pool, root: UseOf) -> Result<Plan, CheckFault>
        requires root { root.id.0 < length pool.now }
        requires held { AreHeldIn pool.now self.now.requests }
        ensures plan { IfOk result (IsPlan pool.now self.now root.id.0) }
        ensures fault { IfErr result (IsDueFault pool.now self.now root.id.0) }
    {
        let Ok(reached) = reached_from(self, pool, root.id) else {
            return Err(CheckFault::NoMemory);
        };
        match search(self.allocator(), &reached.graph, 0) {
            Ok(Found::Cycle(walk)) => Err(cycle_fault(self, pool, &reached, walk.as_slice())),
            Ok(Found::Order(order)) => plan_or_rank(self, pool, &reached, order.as_slice()),
            Err(_) => Err(CheckFault::NoMemory),
        }
    }
}

/// The cycle that was found, by origins.
fn cycle_fault(table: &RequestTable, pool: &Pool, reached: &Reached, walk: &[u32]) -> CheckFault
    requires held { AreHeldIn pool.now table.now.requests }
    requires reached { IsReached pool.now table.now reached.now.root.0 reached.now.nodes.keys reached.now.graph }
    requires found { IsCycleFrom reached.now.graph 0 walk.now }
    ensures { IsDueFault pool.now table.now reached.now.root.0 result }
{
    pool.laws();
    table.laws(pool);
    numbers_carry();
    match origins_of(table.allocator(), pool, &reached.nodes, walk) {
        Ok(walk) => CheckFault::Cycle(walk),
        Err(_) => CheckFault::NoMemory,
    }
}

/// The plan where the rank isn't past the limit.
fn plan_or_rank(
    table: &RequestTable,
    pool: &Pool,
    reached: &Reached,
    order: &[u32],
) -> Result<Plan, CheckFault>
    requires held { AreHeldIn pool.now table.now.requests }
    requires reached { IsReached pool.now table.now reached.now.root.0 reached.now.nodes.keys reached.now.graph }
    requires found { IsOrderFrom reached.now.graph 0 order.now }
    ensures plan { IfOk result (IsPlan pool.now table.now reached.now.root.0) }
    ensures fault { IfErr result (IsDueFault pool.now table.now reached.now.root.0) }
{
    pool.laws();
    table.laws(pool);
    numbers_carry();
    cycles_are_determined();
    let Ok(ranks) = ranks(table.allocator(), &reached.graph, order) else {
        return Err(CheckFault::NoMemory);
    };
    let rank = ranks[0];
    if rank > MOST_RANK {
        return Err(CheckFault::Rank(rank as u64));
    }
    match planned(table, reached, order) {
        Ok(plan) => Ok(plan),
        Err(_) => Err(CheckFault::NoMemory),
    }
}

/// The plan of the nodes of an order of finishing.
fn planned(table: &RequestTable, reached: &Reached, order: &[u32]) -> Result<Plan, AllocError>
    requires long { length reached.now.graph ≡ length reached.now.nodes.keys }
    requires ends { EndsAreNodes reached.now.graph }
    requires distinct { IsDistinct reached.now.nodes.keys }
    requires found { IsOrderFrom reached.now.graph 0 order.now }
    ensures { IfOk result (IsPlannedBy table.now reached.now.nodes.keys reached.now.graph order.now) }
{
    let places = reaching(table, reached, order, Part::Place)?;
    let turns = reaching(table, reached, order, Part::Turn)?;
    plan_of(
        table,
        &reached.nodes,
        order,
        places.as_slice(),
        turns.as_slice(),
    )
}
