//! The rule of rewriting on plain trees: slow, and the yardstick of faster ways.
ghost use Rattle.std.specs.Prelude.{◌≡◌, ◌∷◌, [], map, IfErr, IfOk, IsOk, OnOk};
ghost use Rattle.orientation.specs.declared.turn.Turn;
ghost use Rattle.expansion_laws.specs.Trees.{a_single, tree_of};
ghost use Rattle.expansion_laws.specs.Contexts.{inside as inside_of};
ghost use Rattle.expansion_laws.specs.Steps.{root_of};
ghost use Rattle.expansion_laws.specs.Rewriting.{is_pruned as is_pruned_by};
ghost use Rattle.expansion_laws.specs.Plain.{shown_tree, shown_use};
ghost use Rattle.expansion_laws.specs.SlowRewriting.{IsDueOutcome};
ghost use Rattle.expansion_laws.specs.SlowParts.{context, seen_use, step_by, Refuses};
ghost use Rattle.expansion_laws.specs.SlowCalls.{match_part, rebuilt_use, remaining_part, remaining_uses, replace_part};
ghost use Rattle.expansion_laws.specs.SlowCalls.{root_outcome, use_part, uses_part, GivesRewritten, RootBecomes};

use crate::fault::ExpandFault;
use crate::moving::{Here, Rules, Seen, entered_uses, enters, new_use, onward, own_use, tested};
use crate::plain::{Tree, TreeUse, copied, use_of};
use crate::requests::{SlowRequest, last_fitting};
use location_words::Word;
use orientation::{Kind, Rule, Turn, compose};
use std::alloc::{AllocError, Global};

/// Rewrites the root by the rule: each occurrence meets the last request that fits it, and what comes of it is
/// rewritten again.
///
/// Origin `k` has the kind `kinds[k - 1]`, and any other origin is a compound. What no request meets is gone through by
/// `rule`. There are at most `budget` visits.
pub fn rewrite_slow(
    alloc: Global,
    root: &TreeUse,
    requests: &[SlowRequest],
    kinds: &[Kind],
    rule: Rule,
    budget: u64,
) -> Result<TreeUse, ExpandFault>
    ensures ok { IfOk result (λ new. RootBecomes requests.now kinds.now rule root.now new) }
    ensures within { OnOk result (IsOk (root_outcome requests.now kinds.now rule root.now budget)) }
    ensures refused { IfErr result (IsDueOutcome (root_outcome requests.now kinds.now rule root.now budget)) }
{
    let rules = Rules {
        alloc,
        requests,
        kinds,
        rule,
    };
    let here = Here {
        turn: Turn::Forward,
        word: Word::identity(alloc),
    };
    let Ok(one) = own_use(root) else {
        return Err(ExpandFault::NoMemory);
    };
    let rewritten = rewrite_use(&rules, &here, &one, budget)?;
    match new_root(alloc, rewritten.results) {
        Ok(new) => Ok(new),
        Err(_) => Err(ExpandFault::NoMemory),
    }
}

/// The one result, or a compound over all results.
fn new_root(alloc: Global, results: Vec<TreeUse>) -> Result<TreeUse, AllocError>
    ensures { IfOk result (λ new. shown_use new ≡ root_of (map shown_use results.items)) }
{
    let mut results = results;
    if results.len() != 1 {
        let several = compound(alloc, results)?;
        return Ok(several);
    }
    match results.pop() {
        Some(only) => Ok(only),
        None => {
            let none = compound(alloc, results)?;
            Ok(none)
        }
    }
}

/// A compound over uses.
fn compound(alloc: Global, results: Vec<TreeUse>) -> Result<TreeUse, AllocError>
    ensures { IfOk result (λ new. shown_use new ≡ a_single Turn.Forward [] (tree_of 0 (map shown_use results.items))) }
{
    let tree = Tree {
        origin: 0,
        uses: results,
    };
    use_of(alloc, Turn::Forward, &Word::identity(alloc), tree)
}

/// The results of uses, in order, and how many visits are left.
#[derive(Drop)]
struct Rewritten {
    results: Vec<TreeUse>,
    left: u64,
}

/// Rewrites a use in a context.
#[cycle(rewrite)]
fn rewrite_use(rules: &Rules, here: &Here, one: &Seen, left: u64) -> Result<Rewritten, ExpandFault>
    ensures ok { IfOk result (λ r. GivesRewritten (use_part rules.now here.now one.now) left r) }
    ensures refused { IfErr result (Refuses (use_part rules.now here.now one.now) left) }
{
    if left == 0 {
        return Err(ExpandFault::TooBig);
    }
    let inside = Here {
        turn: compose(here.turn, one.turn),
        word: tested(&here.word, &one.word)?,
    };
    let matched = rewrite_matched(rules, here, &inside, one, left - 1)?;
    Ok(matched)
}

/// Rewrites a use by its match, where its accumulated turn and word are known.
#[cycle(rewrite)]
fn rewrite_matched(
    rules: &Rules,
    here: &Here,
    inside: &Here,
    one: &Seen,
    left: u64,
) -> Result<Rewritten, ExpandFault>
    requires { context inside.now ≡ inside_of (context here.now) (seen_use one.now) }
    ensures ok { IfOk result (λ r. GivesRewritten (match_part rules.now here.now one.now) left r) }
    ensures refused { IfErr result (Refuses (match_part rules.now here.now one.now) left) }
{
    match last_fitting(rules.requests, one.tree, inside) {
        None => go_through(rules, inside, one, left),
        Some(request) => match &request.target {
            None => Ok(Rewritten {
                results: Vec::new(rules.alloc),
                left,
            }),
            Some(by) => replace(rules, here, one, &request.place, by, left),
        },
    }
}

/// Goes through a use that no request meets.
#[cycle(rewrite)]
fn go_through(rules: &Rules, inside: &Here, one: &Seen, left: u64) -> Result<Rewritten, ExpandFault>
    ensures ok { IfOk result (λ r. GivesRewritten (remaining_part rules.now inside.now one.now) left r) }
    ensures refused { IfErr result (Refuses (remaining_part rules.now inside.now one.now) left) }
{
    let Ok(own) = entered_uses(rules, one.tree) else {
        return Err(ExpandFault::NoMemory);
    };
    let below = rewrite_each(rules, inside, own.as_slice(), left)?;
    match remaining(rules, one, below.results) {
        Ok(results) => Ok(Rewritten {
            results,
            left: below.left,
        }),
        Err(_) => Err(ExpandFault::NoMemory),
    }
}

/// What remains of a use that no request meets, over the results of the uses that are gone through.
fn remaining(rules: &Rules, one: &Seen, below: Vec<TreeUse>) -> Result<Vec<TreeUse>, AllocError>
    ensures { IfOk result (λ results. map shown_use results.items ≡ remaining_uses rules.now one.now below.items) }
{
    if !enters(rules, one.tree) {
        let same = unchanged(rules.alloc, one)?;
        return Ok(same);
    }
    if is_pruned(rules, one.tree, below.as_slice()) {
        return Ok(Vec::new(rules.alloc));
    }
    let stays = rebuilt(rules.alloc, one, below)?;
    Ok(stays)
}

/// Whether a tree that is gone through goes with its uses: it has some, and none is left.
fn is_pruned(rules: &Rules, tree: &Tree, below: &[TreeUse]) -> bool
    ensures { result ≡ is_pruned_by (step_by rules.now) (shown_tree tree.now) (map shown_use below.now) }
{
    let own = tree.uses.as_slice();
    rules.rule.prune && (!own.is_empty() && below.is_empty())
}

/// A use as it is, as the one result.
fn unchanged(alloc: Global, one: &Seen) -> Result<Vec<TreeUse>, AllocError>
    ensures { IfOk result (λ results. map shown_use results.items ≡ seen_use one.now ∷ []) }
{
    let tree = copied(alloc, one.tree)?;
    let stays = use_of(alloc, one.turn, &one.word, tree)?;
    let mut results = Vec::new(alloc);
    results.push(stays)?;
    Ok(results)
}

/// A use with other uses in its tree, as the one result.
fn rebuilt(alloc: Global, one: &Seen, below: Vec<TreeUse>) -> Result<Vec<TreeUse>, AllocError>
    ensures { IfOk result (λ results. map shown_use results.items ≡ rebuilt_use one.now below.items ∷ []) }
{
    let tree = Tree {
        origin: one.tree.origin,
        uses: below,
    };
    let stays = use_of(alloc, one.turn, &one.word, tree)?;
    let mut results = Vec::new(alloc);
    results.push(stays)?;
    Ok(results)
}

/// Rewrites what stands in a use's place.
#[cycle(rewrite)]
fn replace(
    rules: &Rules,
    here: &Here,
    one: &Seen,
    place: &Option<Word>,
    by: &TreeUse,
    left: u64,
) -> Result<Rewritten, ExpandFault>
    ensures ok { IfOk result (λ r. GivesRewritten (replace_part rules.now here.now one.now place.now by.now) left r) }
    ensures refused { IfErr result (Refuses (replace_part rules.now here.now one.now place.now by.now) left) }
{
    let new = new_use(here, one, place, by)?;
    let next = onward(rules, one.tree, &new)?;
    let rewritten = rewrite_each(rules, here, next.as_slice(), left)?;
    Ok(rewritten)
}

/// Rewrites uses in one context, and joins their results.
#[cycle(rewrite)]
fn rewrite_each(
    rules: &Rules,
    here: &Here,
    uses: &[Seen],
    left: u64,
) -> Result<Rewritten, ExpandFault>
    ensures ok { IfOk result (λ r. GivesRewritten (uses_part rules.now here.now uses.now) left r) }
    ensures refused { IfErr result (Refuses (uses_part rules.now here.now uses.now) left) }
{
    let mut results = Vec::new(rules.alloc);
    let mut rest = left;
    for i in 0..uses.len() {
        let mut part = rewrite_use(rules, here, &uses[i], rest)?;
        rest = part.left;
        if results.append(&mut part.results).is_err() {
            return Err(ExpandFault::NoMemory);
        }
    }
    Ok(Rewritten {
        results,
        left: rest,
    })
}
