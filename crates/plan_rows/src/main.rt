//! Loads files into pools, plans how their roots are written, writes them over desks in memory, and prints what was
//! written. Between two files of the input stands the line `---`; behind it the version may stand, in which the file is
//! written, and how many bytes a call of the desk moves.
#![tactic(auto)]

mod loads;
mod plans;

use loads::row_text;
use std::io;

fn main(rt: HostRuntime) -> io::Result<()> {
    let alloc = rt.alloc();
    let text = io::read_to_string(alloc, rt.stdin())?;
    for row in text.as_str().split("--- ") {
        if !row.is_empty() {
            let said = row_text(alloc, row)?;
            rt.print(said.as_str())?;
        }
    }
    Ok(())
}
