//! Worked runs of the whole program: reads rows of files and commands, and prints them with what each command answers and
//! writes.
#![tactic(auto)]

mod answers;
mod reads;
mod rows;
mod sweeps;

use rows::Rows;
use std::io;

fn main(rt: HostRuntime) -> io::Result<()> {
    let alloc = rt.alloc();
    let text = io::read_to_string(alloc, rt.stdin())?;
    let mut rows = Rows::new(alloc);
    for line in text.lines() {
        rows.take(line)?;
    }
    rt.print(rows.said())
}
