//! Records: the entries of the section `TShapes`.
use crate::uses::FileUses;
use lists::ListOf;
use tshape_data::Head;

/// A record: an entry of the section `TShapes`.
#[derive(Drop)]
pub struct Record {
    pub head: Head,
    pub uses: FileUses,
}

/// The records in file order. In a file of `n` records the one at place `j`, from 1, has the number `n - j + 1`.
pub type Records = ListOf<Record>;
