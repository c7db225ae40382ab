//! What a history file holds.

use crate::pairs::NumberPairs;
use brep_tokens::Numbers;

/// The history of a run. An input record goes by its number in the input, a written record by its number in the output.
#[derive(Drop)]
pub struct HistoryFile {
    /// The input record that each written record comes from, or 0 for none, by the number of the written one from 1 on.
    pub origins: Numbers,
    /// Input records, each with a written record that it became.
    pub modified: NumberPairs,
    /// Input records, each with a written record of a lower kind that its replacement brought.
    pub generated: NumberPairs,
    /// Input records that became nothing.
    pub removed: Numbers,
}
