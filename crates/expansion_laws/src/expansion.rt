//! The expansion of a record into its tree.
ghost use Rattle.std.specs.Prelude.{◌≡◌, ◌≤◌, ◌+◌, length, reverse, IfErr, IfOk, OnOk};
ghost use Rattle.expansion_laws.specs.Expansion.{IsNumberOf, NamesAbove, tree_of_number};
ghost use Rattle.expansion_laws.specs.Plain.{shown_tree};
ghost use Rattle.expansion_laws.specs.PlainFile.{rows, uses_under, IsDueExpansion};

use crate::fault::ExpandFault;
use crate::plain::{Tree, use_of};
use crate::records::PlainRecord;
use std::alloc::Global;

/// The tree of a record, where it has no more uses than `budget`: uses are counted as often as they occur.
///
/// The records are in file order and have the numbers of a file: the last one has the number 1.
pub fn expand(
    alloc: Global,
    records: &[PlainRecord],
    number: u32,
    budget: u64,
) -> Result<Tree, ExpandFault>
    requires number { IsNumberOf (length records.now) number }
    requires names { NamesAbove 1 (reverse (rows records.now)) }
    ensures ok { IfOk result (λ x. shown_tree x ≡ tree_of_number (rows records.now) number) }
    ensures within { OnOk result (uses_under records.now number ≤ budget) }
    ensures refused { IfErr result (λ fault. IsDueExpansion (uses_under records.now number) budget fault) }
{
    let expanded = expand_within(alloc, records, number, budget)?;
    Ok(expanded.tree)
}

/// A tree, and how many more uses are allowed.
#[derive(Drop)]
struct Expanded {
    tree: Tree,
    left: u64,
}

/// The tree of a record, where it has no more uses than the budget, and what is left of the budget.
fn expand_within(
    alloc: Global,
    records: &[PlainRecord],
    number: u32,
    budget: u64,
) -> Result<Expanded, ExpandFault>
    requires number { IsNumberOf (length records.now) number }
    requires names { NamesAbove 1 (reverse (rows records.now)) }
    ensures tree { IfOk result (λ e. shown_tree e.tree ≡ tree_of_number (rows records.now) number) }
    ensures left { IfOk result (λ e. e.left + uses_under records.now number ≡ budget) }
    ensures refused { IfErr result (λ fault. IsDueExpansion (uses_under records.now number) budget fault) }
{
    let mut left = budget;
    let mut uses = Vec::new(alloc);
    for u in records[records.len() - number as usize].uses.as_slice() {
        if left == 0 {
            return Err(ExpandFault::TooBig);
        }
        let child = expand_within(alloc, records, u.number, left - 1)?;
        left = child.left;
        let Ok(one) = use_of(alloc, u.turn, &u.word, child.tree) else {
            return Err(ExpandFault::NoMemory);
        };
        if uses.push(one).is_err() {
            return Err(ExpandFault::NoMemory);
        }
    }
    Ok(Expanded {
        tree: Tree {
            origin: number,
            uses,
        },
        left,
    })
}
