//! Trees as answers, in the form in which they stand in rows.
use crate::reading::{Missed, join, said};
use crate::word_text::{fault_said, pairs_said};
use expansion_laws::{ExpandFault, TreeUse};
use orientation::{Kind, Turn, kind_name, sign};
use std::alloc::Global;

/// Appends the two letters of a kind.
pub fn push_kind(text: &mut String, kind: Kind) -> Result<(), Missed> {
    for letter in kind_name(kind) {
        text.push(char::from(*letter))?;
    }
    Ok(())
}

/// The kind of an origin.
fn kind_of(kinds: &[Kind], origin: u32) -> Kind {
    if origin == 0 {
        return Kind::Co;
    }
    match kinds.get(origin as usize - 1) {
        Some(kind) => *kind,
        None => Kind::Co,
    }
}

/// The label of a use; a forward turn has no sign, and the identity no place.
fn label_said(alloc: Global, kinds: &[Kind], one: &TreeUse) -> Result<String, Missed> {
    let mut text = String::new(alloc);
    if one.turn != Turn::Forward {
        text.push(char::from(sign(one.turn)))?;
    }
    let origin = one.tree.origin;
    text.push_str(format!(in alloc; "{origin}")?.as_str())?;
    push_kind(&mut text, kind_of(kinds, origin))?;
    if !one.word.pairs().is_empty() {
        text.push('@')?;
        text.push_str(pairs_said(alloc, &one.word, ".")?.as_str())?;
    }
    Ok(text)
}

/// A use with all that stands below it.
#[cycle(said)]
pub fn tree_said(alloc: Global, kinds: &[Kind], one: &TreeUse) -> Result<String, Missed> {
    let mut text = label_said(alloc, kinds, one)?;
    if !one.tree.uses.is_empty() {
        let below = uses_said(alloc, kinds, &one.tree.uses)?;
        text.push('(')?;
        text.push_str(below.as_str())?;
        text.push(')')?;
    }
    Ok(text)
}

/// Uses with spaces between them.
#[cycle(said)]
fn uses_said(alloc: Global, kinds: &[Kind], uses: &[TreeUse]) -> Result<String, Missed> {
    let mut text = String::new(alloc);
    for i in 0..uses.len() {
        let one = tree_said(alloc, kinds, &uses[i])?;
        join(&mut text, " ", one.as_str())?;
    }
    Ok(text)
}

/// The new root, or why there is none.
pub fn root_said(
    alloc: Global,
    kinds: &[Kind],
    answer: Result<TreeUse, ExpandFault>,
) -> Result<String, Missed> {
    match answer {
        Ok(root) => tree_said(alloc, kinds, &root),
        Err(ExpandFault::TooBig) => said(alloc, "too big"),
        Err(ExpandFault::Word(fault)) => fault_said(alloc, fault),
        Err(ExpandFault::NoMemory) => Err(Missed::NoMemory),
    }
}
