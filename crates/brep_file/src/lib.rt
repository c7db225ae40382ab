//! A BREP file as a value, read from its bytes: what spells a file, what makes it sound, and its expansion.
#![tactic(auto)]

mod file;
mod file_reader;
pub mod laws;
mod marks;
mod reader;
mod records;
mod uses;

pub use file::File;
pub use file_reader::FileReader;
pub use marks::is_marked;
pub use reader::read_file;
pub use records::{Record, Records};
pub use uses::{FileUse, FileUses, keep_unmarked};
