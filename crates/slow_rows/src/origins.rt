//! Trees of a written file by the origins of its records.
use expansion_laws::{Tree, TreeUse};
use orientation::Kind;
use std::alloc::Global;
use tree_texts::Missed;

/// The origin of a written record.
fn origin_of(origins: &[u64], number: u32) -> Result<u32, Missed> {
    if number == 0 {
        return Err(Missed::Unclear);
    }
    match origins.get(number as usize - 1) {
        Some(origin) => match u32::try_from(*origin) {
            Ok(origin) => Ok(origin),
            Err(_) => Err(Missed::Unclear),
        },
        None => Err(Missed::Unclear),
    }
}

/// A use whose tree has the origins of the records in the place of their numbers.
#[cycle(named)]
pub(crate) fn by_origins(alloc: Global, origins: &[u64], one: &TreeUse) -> Result<TreeUse, Missed> {
    let origin = origin_of(origins, one.tree.origin)?;
    let uses = each_by_origins(alloc, origins, &one.tree.uses)?;
    Ok(TreeUse {
        turn: one.turn,
        word: one.word.clone()?,
        tree: Box::new(alloc, Tree { origin, uses })?,
    })
}

/// The same of each use.
#[cycle(named)]
fn each_by_origins(
    alloc: Global,
    origins: &[u64],
    uses: &[TreeUse],
) -> Result<Vec<TreeUse>, Missed> {
    let mut named = Vec::new(alloc);
    for i in 0..uses.len() {
        let one = by_origins(alloc, origins, &uses[i])?;
        named.push(one)?;
    }
    Ok(named)
}

/// The kind of an origin: the origin 0 is a compound that was made at the root.
fn kind_of(kinds: &[Kind], origin: u64) -> Option<Kind> {
    if origin == 0 {
        return Some(Kind::Co);
    }
    match usize::try_from(origin - 1) {
        Ok(place) => kinds.get(place).copied(),
        Err(_) => None,
    }
}

/// Whether each written record has an origin, and the kind of its origin. Kinds and origins go by numbers from 1 on.
pub(crate) fn keep_kinds(kinds: &[Kind], origins: &[u64], written: &[Kind]) -> bool {
    if origins.len() != written.len() {
        return false;
    }
    for i in 0..written.len() {
        if kind_of(kinds, origins[i]) != Some(written[i]) {
            return false;
        }
    }
    true
}
