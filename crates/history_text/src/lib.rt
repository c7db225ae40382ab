//! The history of a rewriting as a text file, written and read: which record each written record comes from, and what
//! was modified, generated and removed.
#![tactic(auto)]

mod fault;
mod file;
/// The laws of history texts, as functions whose contracts state them.
pub mod laws;
mod line_forms;
mod lines;
mod lines_left;
mod pairs;
mod pending;
mod reading;
mod text;

pub use fault::HistoryFault;
pub use file::HistoryFile;
pub use pairs::NumberPairs;
pub use reading::read;
pub use text::emit;
