//! The derivation of a step by keys, of which all limits but that of nodes are tested.
ghost use Rattle.std.specs.Prelude.{◌≡◌, ◌<◌, All, IfErr, IfOk, length};
ghost use Rattle.shape_pool.specs.Rows.{tree_at, use_by, HasPlaces};
ghost use Rattle.requests.specs.Numbered.{Table};
ghost use Rattle.key_results.specs.Words.{GrowsTo};
ghost use Rattle.key_results.specs.Derivations.{AreLinked, AreVisitsHeld};
ghost use Rattle.key_results.specs.Grown.{AreInOrder};
ghost use Rattle.key_results.specs.Parts.{AreHeldParts, AreOfOwn, ArePartsOfOwn, IsHeldPart};
ghost use Rattle.reshape.specs.Readings.{InRootSteps, IsCarriedOut};
ghost use Rattle.reshape.specs.Limits.{first_groups, IsDueOf};
ghost use Rattle.reshape.specs.Deriving.{IsDerivedStep};

use crate::laws::steps_have_laws;
use crate::limits::{weights_within, within_depth};
use crate::visits::visits_of_step;
use key_results::laws::{outgrowths_give_results, results_follow_visits};
use key_results::{ApplyFault, Outgrowth, Part, Visit, outgrowths_of, root_parts};
use location_words::Words;
use location_words::laws::limits_tell;
use requests::{Plan, targets_fit_as_trees};
use shape_pool::{Pool, UseOf};
use std::alloc::Global;

/// What a step comes to, before its nodes are made: the visits of its keys, what comes of each, and the results of the
/// root.
#[derive(Drop)]
pub(crate) struct Derived {
    pub(crate) visits: Vec<Visit>,
    pub(crate) outgrowths: Vec<Outgrowth>,
    pub(crate) root: Vec<Part>,
}

/// How many parts there are.
fn count_of(parts: &Vec<Part>) -> usize
    ensures { result ≡ length parts.now.items }
{
    parts.len()
}

/// Whether a step prunes.
fn is_pruning(plan: &Plan) -> bool
    ensures { result ≡ plan.now.rule.prune }
{
    plan.rule().prune
}

/// The derivation of a step.
pub(crate) fn derive_step(
    alloc: Global,
    pool: &Pool,
    words: &mut Words,
    plan: &Plan,
    root: UseOf,
) -> Result<Derived, ApplyFault>
    requires root { root.id.0 < length pool.now }
    requires place { root.place.0 < length words.old }
    requires places { HasPlaces pool.now (length words.old) }
    requires plan { (t : Table) × IsCarriedOut pool.now (length words.old) root.id.0 plan.now t }
    ensures derived { IfOk result (λ d. InRootSteps pool.now (length words.old) root.id.0 plan.now words.new (λ s word.
        IsDerivedStep pool.now s word (use_by word (tree_at word pool.now) root)
        d.visits.items d.outgrowths.items d.root.items)) }
    ensures linked { IfOk result (λ d. AreLinked d.visits.items) }
    ensures held { IfOk result (λ d. AreVisitsHeld pool.now d.visits.items) }
    ensures long { IfOk result (λ d. length d.outgrowths.items ≡ length d.visits.items) }
    ensures parts { IfOk result (λ d. AreHeldParts (length words.new) d.outgrowths.items) }
    ensures own { IfOk result (λ d. AreOfOwn d.outgrowths.items) }
    ensures order { IfOk result (λ d. AreInOrder pool.now d.visits.items d.outgrowths.items) }
    ensures root_parts { IfOk result (λ d. All (IsHeldPart (length d.outgrowths.items) (length words.new)) d.root.items) }
    ensures root_own { IfOk result (λ d. ArePartsOfOwn d.outgrowths.items d.root.items) }
    ensures refused { IfErr result (λ fault. InRootSteps pool.now (length words.old) root.id.0 plan.now words.new
        (λ s word. IsDueOf (first_groups s (use_by word (tree_at word pool.now) root)) fault)) }
    ensures grows { GrowsTo words.old words.new }
{
    pool.laws();
    steps_have_laws();
    limits_tell();
    outgrowths_give_results();
    results_follow_visits();
    targets_fit_as_trees(pool);
    let visits = visits_of_step(alloc, pool, words, plan, root)?;
    let prune = is_pruning(plan);
    let all = visits.as_slice();
    let weights = weights_within(alloc, pool, prune, all)?;
    let outgrowths = outgrowths_of(alloc, words, prune, all)?;
    let came = outgrowths.as_slice();
    let many = all.len();
    let key = many - 1;
    let parts = root_parts(alloc, words, root, key, came)?;
    let count = count_of(&parts);
    within_depth(&weights, key, count)?;
    Ok(Derived {
        visits,
        outgrowths,
        root: parts,
    })
}
