//! What a run reads from and writes to, by name, with a count of the faults of the outside.
#![tactic(auto)]

mod channels;
mod counts;
mod desk;
mod kept;
mod memory;
mod names;
mod outputs;
mod steps;
mod strays;
mod transfers;

pub use desk::{Chan, Desk, Failed};
pub use memory::MemoryDesk;
pub use names::{Bytes, CommandWords, NameText};
pub use steps::Steps;
pub use transfers::{ReadAll, WriteStop, read_all, write_all};
