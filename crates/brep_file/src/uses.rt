//! Uses of records.
ghost use Rattle.brep_file.specs.Marks.{kept_uses, mark_of};
ghost use Rattle.std.specs.Prelude.{◌≡◌};

use crate::marks::is_marked;
use lists::ListOf;
use orientation::Turn;

/// A use of a record: how it is turned, the number of the record, and the number of its location, 0 for the identity.
#[derive(Clone, Copy, Debug, PartialEq, Eq)]
pub struct FileUse {
    pub turn: Turn,
    pub number: u32,
    pub location: u32,
}

/// The uses of a record, in their order.
pub type FileUses = ListOf<FileUse>;

/// Leaves out the uses of the records that are marked.
pub fn keep_unmarked(uses: &mut FileUses, marks: &[bool])
    ensures { uses.new ≡ kept_uses (mark_of marks.now) uses.old }
{
    uses.retain(|used| !is_marked(marks, used.number as usize));
}
