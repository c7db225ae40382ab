//! Why a text is no history file.
use thiserror::Error;

/// Why a text gives no history.
#[derive(Clone, Copy, Debug, PartialEq, Eq, Error)]
pub enum HistoryFault {
    /// The bytes spell no history file. The line is the first one that disagrees with the layout, counted from 1; where
    /// a line is missing, the number is the one that it would have.
    #[error("line {line} disagrees with a history file")]
    NotHistory { line: u64 },
    #[error("no memory")]
    NoMemory,
}
