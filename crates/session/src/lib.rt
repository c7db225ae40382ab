//! A session: the commands of a script, carried out on a file one after another, with the history of what they did.
#![tactic(auto)]

mod asking;
mod command;
mod ending;
mod fault;
mod session;
mod stepping;

pub use fault::SessionFault;
pub use session::Session;
