//! Bytes on their way to a channel of a desk, of which the last wait in one array; and what takes bytes: such a
//! channel, or a text in memory. What takes bytes refuses nothing on the way: it stops for good, and tells so at the
//! end.
#![tactic(auto)]

/// The laws of handing in, as functions whose contracts state them.
pub mod laws;
mod pieces;
mod sink;
mod takes;
mod text;
mod waiting;

pub use pieces::{push_byte, push_line};
pub use sink::Sink;
pub use takes::TakesBytes;
pub use text::TextBytes;
pub use waiting::WaitingBytes;
