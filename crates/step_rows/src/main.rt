//! Loads files into pools, carries out steps over them, and prints the nodes.
//!
//! The input is parts, between which the line `---` stands. A part is a file, and behind it perhaps the line `...` and
//! the lines of a script. The answer is the root and the nodes, then the new root, the nodes that the step made, what
//! became of those that it visited, and the history in numbers.
#![tactic(auto)]

mod asking;
mod histories;
mod loads;
mod saying;
mod steps;

use loads::part_text;
use std::io;

fn main(rt: HostRuntime) -> io::Result<()> {
    let alloc = rt.alloc();
    let text = io::read_to_string(alloc, rt.stdin())?;
    for part in text.as_str().split("---\n") {
        let said = part_text(alloc, part)?;
        rt.print(said.as_str())?;
    }
    Ok(())
}
