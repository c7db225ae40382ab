//! The end of a step.
ghost use Rattle.std.specs.Prelude.{◌≡◌, ◌<◌, ◌≤◌, All, IfErr, IfOk, OnErr, OnOk, length, reverse};
ghost use Rattle.key_results.specs.Words.{GrowsTo};
ghost use Rattle.requests.specs.Numbered.{a_table, ActFits, AreHeldIn, Table};
ghost use Rattle.requests.specs.Plans.{IsPlan};
ghost use Rattle.reshape.specs.Answers.{IsWithinLimits, RisesByKeys};
ghost use Rattle.reshape.specs.Readings.{InSteps, IsCarriedOut};
ghost use Rattle.shape_pool.specs.Calls.{Keeps, KeepsLoaded};
ghost use Rattle.shape_pool.specs.Rows.{HasPlaces};
ghost use Rattle.step_history.specs.Numbered.{IsHeld};
ghost use Rattle.session.specs.Refusals.{most_steps};
ghost use Rattle.script_requests.specs.Named.{last_root as root_of_last, last_history as history_of_last};
ghost use Rattle.session.specs.Stepped.{IsPlanFault, IsStepFault, IsVersionAdded, IsVersionMade};

use crate::fault::SessionFault;
use brep_desk::Steps;
use history_merge::chain;
use location_words::Words;
use orientation::Rule;
use requests::{AddFault, Plan, Request, RequestTable};
use reshape::{LimitKind, apply};
use script_requests::{Version, last_history, last_root};
use shape_pool::{Pool, UseOf};
use std::alloc::{AllocError, Global};
use std::sync::ledger::Ledger;
use step_history::{StepHistory, of_step};

/// The greatest number of steps that a session carries out, those that are taken back included.
const MOST_STEPS: u32 = 64;

/// The table of requests under a rule.
fn table_of(
    alloc: Global,
    pool: &Pool,
    asked: &[Request],
    rule: Rule,
) -> Result<RequestTable, AllocError>
    requires held { AreHeldIn pool.now asked.now }
    requires fit { All (λ (r : Request). ActFits pool.now r.source.0 r.act) asked.now }
    ensures { IfOk result (λ t. t ≡ a_table asked.now rule) }
{
    let mut table = RequestTable::new(alloc);
    for request in asked {
        match table.add(pool, *request) {
            Ok(()) => {}
            Err(AddFault::KindMismatch) => unreachable!(),
            Err(AddFault::NoMemory) => return Err(AllocError),
        }
    }
    table.set_rule(rule);
    Ok(table)
}

/// The plan of a step, if it may be carried out after so many.
pub(crate) fn plan_of(
    alloc: Global,
    pool: &Pool,
    asked: &[Request],
    rule: Rule,
    root: UseOf,
    carried: u32,
) -> Result<Plan, SessionFault>
    requires root { root.id.0 < length pool.now }
    requires held { AreHeldIn pool.now asked.now }
    requires fit { All (λ (r : Request). ActFits pool.now r.source.0 r.act) asked.now }
    ensures plan { IfOk result (IsPlan pool.now (a_table asked.now rule) root.id.0) }
    ensures room { OnOk result (carried < most_steps) }
    ensures refused { IfErr result (IsPlanFault pool.now (a_table asked.now rule) root.id.0 carried) }
{
    if carried >= MOST_STEPS {
        return Err(SessionFault::Limit {
            which: LimitKind::Steps,
            count: u128::from(MOST_STEPS) + 1,
        });
    }
    let table = table_of(alloc, pool, asked, rule)?;
    let plan = table.check(pool, root)?;
    Ok(plan)
}

/// The version that a step makes of the one before it, which has a root and a history.
pub(crate) fn version_of<L: Ledger>(
    pool: &mut Pool,
    words: &mut Words,
    plan: &Plan,
    first: UseOf,
    before: UseOf,
    history: &StepHistory,
    steps: &mut Steps<L>,
) -> Result<Version, SessionFault>
    requires root { before.id.0 < length pool.old }
    requires place { before.place.0 < length words.old }
    requires places { HasPlaces pool.old (length words.old) }
    requires plan { (t : Table) × IsCarriedOut pool.old (length words.old) before.id.0 plan.now t }
    requires first { first.id.0 < length pool.old }
    requires history { IsHeld pool.old history.now }
    ensures made { IfOk result (IsVersionMade pool.old pool.new (length words.old) words.new plan.now first before
        history.now) }
    ensures within { OnOk result (InSteps pool.old (length words.old) before.id.0 plan.now words.new
        (IsWithinLimits pool.old before)) }
    ensures refused { IfErr result (IsStepFault pool.old pool.new (length words.old) words.new plan.now first before
        history.now) }
    ensures steps { InSteps pool.old (length words.old) before.id.0 plan.now words.new
        (RisesByKeys pool.old before steps.old steps.new) }
    ensures rise { steps.old ≤ steps.new }
    ensures kept { Keeps pool.old pool.new }
    ensures loaded { KeepsLoaded pool.old pool.new }
    ensures places { HasPlaces pool.new (length words.new) }
    ensures words { GrowsTo words.old words.new }
{
    let made = apply(pool, words, plan, before, steps)?;
    let step = of_step(pool, before.id, made.root.id, &made.images, &made.replaced)?;
    let whole = chain(pool, first.id, made.root.id, history, &step)?;
    Ok(Version {
        root: made.root,
        images: made.images,
        history: whole,
    })
}

/// Adds the version that a plan leads to from the last one.
fn push_version<L: Ledger>(
    pool: &mut Pool,
    words: &mut Words,
    versions: &mut Vec<Version>,
    plan: &Plan,
    first: UseOf,
    start: &StepHistory,
    steps: &mut Steps<L>,
) -> Result<(), SessionFault>
    requires root { (root_of_last first (reverse versions.old.items)).id.0 < length pool.old }
    requires place { (root_of_last first (reverse versions.old.items)).place.0 < length words.old }
    requires places { HasPlaces pool.old (length words.old) }
    requires plan { (t : Table) × IsCarriedOut pool.old (length words.old)
        (root_of_last first (reverse versions.old.items)).id.0 plan.now t }
    requires first { first.id.0 < length pool.old }
    requires history { IsHeld pool.old (history_of_last start.now (reverse versions.old.items)) }
    ensures made { OnOk result (IsVersionAdded pool.old pool.new (length words.old) words.new plan.now first start.now
        versions.old.items versions.new.items) }
    ensures within { OnOk result (InSteps pool.old (length words.old)
        (root_of_last first (reverse versions.old.items)).id.0 plan.now words.new
        (IsWithinLimits pool.old (root_of_last first (reverse versions.old.items)))) }
    ensures refused { IfErr result (IsStepFault pool.old pool.new (length words.old) words.new plan.now first
        (root_of_last first (reverse versions.old.items))
        (history_of_last start.now (reverse versions.old.items))) }
    ensures same { OnErr result (versions.new.items ≡ versions.old.items) }
    ensures steps { InSteps pool.old (length words.old)
        (root_of_last first (reverse versions.old.items)).id.0 plan.now words.new
        (RisesByKeys pool.old (root_of_last first (reverse versions.old.items)) steps.old steps.new) }
    ensures rise { steps.old ≤ steps.new }
    ensures kept { Keeps pool.old pool.new }
    ensures loaded { KeepsLoaded pool.old pool.new }
    ensures places { HasPlaces pool.new (length words.new) }
    ensures words { GrowsTo words.old words.new }
{
    let root = last_root(first, versions.as_slice());
    let history = last_history(start, versions.as_slice());
    let version = version_of(pool, words, plan, first, root, history, steps)?;
    match versions.push(version) {
        Ok(()) => Ok(()),
        Err(_) => Err(SessionFault::NoMemory),
    }
}

/// The same; after a fault the pool is as it was too.
pub(crate) fn add_version<L: Ledger>(
    pool: &mut Pool,
    words: &mut Words,
    versions: &mut Vec<Version>,
    plan: &Plan,
    first: UseOf,
    start: &StepHistory,
    steps: &mut Steps<L>,
) -> Result<(), SessionFault>
    requires root { (root_of_last first (reverse versions.old.items)).id.0 < length pool.old }
    requires place { (root_of_last first (reverse versions.old.items)).place.0 < length words.old }
    requires places { HasPlaces pool.old (length words.old) }
    requires plan { (t : Table) × IsCarriedOut pool.old (length words.old)
        (root_of_last first (reverse versions.old.items)).id.0 plan.now t }
    requires first { first.id.0 < length pool.old }
    requires history { IsHeld pool.old (history_of_last start.now (reverse versions.old.items)) }
    ensures made { OnOk result (IsVersionAdded pool.old pool.new (length words.old) words.new plan.now first start.now
        versions.old.items versions.new.items) }
    ensures within { OnOk result (InSteps pool.old (length words.old)
        (root_of_last first (reverse versions.old.items)).id.0 plan.now words.new
        (IsWithinLimits pool.old (root_of_last first (reverse versions.old.items)))) }
    ensures refused { IfErr result (IsStepFault pool.old pool.old (length words.old) words.new plan.now first
        (root_of_last first (reverse versions.old.items))
        (history_of_last start.now (reverse versions.old.items))) }
    ensures same { OnErr result (versions.new.items ≡ versions.old.items) }
    ensures back { OnErr result (pool.new ≡ pool.old) }
    ensures steps { InSteps pool.old (length words.old)
        (root_of_last first (reverse versions.old.items)).id.0 plan.now words.new
        (RisesByKeys pool.old (root_of_last first (reverse versions.old.items)) steps.old steps.new) }
    ensures rise { steps.old ≤ steps.new }
    ensures kept { Keeps pool.old pool.new }
    ensures loaded { KeepsLoaded pool.old pool.new }
    ensures places { HasPlaces pool.new (length words.new) }
    ensures words { GrowsTo words.old words.new }
{
    let mark = pool.mark();
    match push_version(pool, words, versions, plan, first, start, steps) {
        Ok(()) => Ok(()),
        Err(fault) => {
            pool.back(mark);
            Err(fault)
        }
    }
}
