//! The trees of plain records.
ghost use Rattle.std.specs.Prelude.{◌≡◌, ◌<◌, ◌≤◌, All, IsTrue, IfOk, length, reverse};
ghost use Rattle.expansion_laws.specs.Expansion.{NamesAbove, tree_of_number};
ghost use Rattle.expansion_laws.specs.Plain.{shown_tree};
ghost use Rattle.expansion_laws.specs.PlainFile.{rows};

use crate::reading::Missed;
use expansion_laws::{ExpandFault, PlainRecord, PlainUse, Tree, expand};
use std::alloc::Global;

/// Whether each of these uses names a record above the one with the number `own`, of so many.
fn all_above(uses: &[PlainUse], own: usize, count: usize) -> bool
    ensures { IsTrue result → All (λ u. (own < u.number) × (u.number ≤ count)) uses.now }
{
    for one in uses {
        let number = one.number as usize;
        if number <= own || number > count {
            return false;
        }
    }
    true
}

/// Whether each use names a record above its own.
fn names_above(records: &[PlainRecord]) -> bool
    ensures { IsTrue result → NamesAbove 1 (reverse (rows records.now)) }
{
    let count = records.len();
    for i in 0..count {
        if !all_above(records[i].uses.as_slice(), count - i, count) {
            return false;
        }
    }
    true
}

/// The tree of a record, or why there is none. The records are in file order, and the last one has the number 1. It is
/// unclear what is meant where a use doesn't name a record above its own, or where no record has the number.
pub fn record_tree(
    alloc: Global,
    records: &[PlainRecord],
    number: u32,
    budget: u64,
) -> Result<Result<Tree, ExpandFault>, Missed>
    ensures { IfOk result (λ answer. IfOk answer (λ x. shown_tree x ≡ tree_of_number (rows records.now) number)) }
{
    if number == 0 || number as usize > records.len() || !names_above(records) {
        return Err(Missed::Unclear);
    }
    Ok(expand(alloc, records, number, budget))
}
