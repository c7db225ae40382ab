//! Lists of names.
use crate::command::SignedName;
use lists::ListOf;

/// Numbers of records, in their order.
pub type Names = ListOf<u32>;

/// Names with their turns, in their order.
pub type SignedNames = ListOf<SignedName>;
