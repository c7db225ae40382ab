//! The lines of a script, the words of a line, and the command that a line spells.
#![tactic(auto)]

mod command;
/// The laws of script lines, as functions whose contracts state them.
pub mod laws;
mod line_words;
mod lines;
mod name_lists;
mod parsing;
mod phrase;
mod reading;
mod writing;

pub use command::{Command, LineFault, Sel, SignedName, Tgt};
pub use lines::{Lines, line_count, lines_of};
pub use name_lists::{Names, SignedNames};
pub use parsing::parse;
pub use writing::spell;
