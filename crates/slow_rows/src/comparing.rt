//! What the whole program makes of a step, beside what the plain rule on trees gives.
use crate::counting::nodes_of;
use crate::made::{Made, made_of};
use crate::shapes::Shapes;
use crate::steps::step_of;
use expansion_laws::{ExpandFault, TreeUse, rewrite_slow, same_tree};
use orientation::Kind;
use std::alloc::Global;
use tree_texts::{Missed, root_said, said, tree_said};

/// How many visits the plain rule may take.
const MOST_VISITS: u64 = 200;

/// Whether two uses are one: turn, word and tree.
fn same_use(a: &TreeUse, b: &TreeUse) -> bool {
    a.turn == b.turn && a.word == b.word && same_tree(&a.tree, &b.tree)
}

/// A root on which both agree, and how many nodes it has.
fn agreed(alloc: Global, kinds: &[Kind], root: &TreeUse) -> Result<String, Missed> {
    let count = nodes_of(root);
    let root = tree_said(alloc, kinds, root)?;
    let root = root.as_str();
    Ok(format!(in alloc; "agree, nodes {count}: {root}")?)
}

/// A step that the program refuses, though the rule gives a root.
fn refused(alloc: Global, kinds: &[Kind], root: &TreeUse, message: &str) -> Result<String, Missed> {
    let root = tree_said(alloc, kinds, root)?;
    let root = root.as_str();
    Ok(format!(in alloc; "refused, {message}: the rule gives {root}")?)
}

/// What the program makes, in words.
fn made_said(alloc: Global, kinds: &[Kind], made: &Made) -> Result<String, Missed> {
    match made {
        Made::Root(root) => tree_said(alloc, kinds, root),
        Made::Circle(message) | Made::Refused(message) => said(alloc, message.as_str()),
    }
}

/// Both, where they don't agree.
fn both_said(
    alloc: Global,
    kinds: &[Kind],
    rule: Result<TreeUse, ExpandFault>,
    made: &Made,
) -> Result<String, Missed> {
    let rule = root_said(alloc, kinds, rule)?;
    let made = made_said(alloc, kinds, made)?;
    let (rule, made) = (rule.as_str(), made.as_str());
    Ok(format!(in alloc; "differ: the rule gives {rule}, and the program {made}")?)
}

/// What is told where the rule gives a root.
fn told_of_root(
    alloc: Global,
    kinds: &[Kind],
    root: TreeUse,
    made: &Made,
) -> Result<String, Missed> {
    match made {
        Made::Root(other) => if same_use(&root, other) {
            agreed(alloc, kinds, other)
        } else {
            both_said(alloc, kinds, Ok(root), made)
        },
        Made::Circle(message) | Made::Refused(message) => {
            refused(alloc, kinds, &root, message.as_str())
        }
    }
}

/// What is told where the rule gives none.
fn told_of_fault(
    alloc: Global,
    kinds: &[Kind],
    fault: ExpandFault,
    made: &Made,
) -> Result<String, Missed> {
    match (fault, made) {
        (ExpandFault::TooBig, Made::Circle(message)) => {
            let message = message.as_str();
            Ok(format!(in alloc; "agree, no end: {message}")?)
        }
        _ => both_said(alloc, kinds, Err(fault), made),
    }
}

/// What comes of a step on a file, by the rule and by the program.
pub(crate) fn compared(alloc: Global, file: &str, script: &str) -> Result<String, Missed> {
    let shapes = Shapes::of(alloc, file.as_bytes())?;
    let step = step_of(alloc, &shapes, script)?;
    let root = shapes.root()?;
    let requests = step.requests.as_slice();
    let kinds = shapes.kinds();
    let rule = rewrite_slow(alloc, &root, requests, kinds, step.rule, MOST_VISITS);
    let made = made_of(alloc, file, script, kinds)?;
    match rule {
        Ok(root) => told_of_root(alloc, kinds, root, &made),
        Err(fault) => told_of_fault(alloc, kinds, fault, &made),
    }
}
