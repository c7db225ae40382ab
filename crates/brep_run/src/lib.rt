//! The top call: reads a BREP file, and writes it, rewritten by a script, or listed.
#![tactic(auto)]

mod command_line;
mod copy;
mod input;
mod listing;
mod listing_words;
mod outcome;
mod output;
mod rewrite;
mod top;

pub use key_results::LimitKind;
pub use outcome::{Message, Outcome};
pub use requests::Walk;
pub use script_requests::{ScriptCode, ScriptFault};
pub use top::run;
