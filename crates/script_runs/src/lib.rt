//! A whole script, carried out on a file: all its lines are read, then its commands are carried out one after another,
//! and the last step is ended.
#![tactic(auto)]

mod commands;
mod run;

pub use run::run_script;
