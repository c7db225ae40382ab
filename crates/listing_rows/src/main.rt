//! Lists the shapes of files. Between two files of the input stands the line `---`; before a file stand the rows that
//! ask for its listings, in the words of the program: `list KIND`, `list X:Y` and `walk KIND N`. Each row is printed with
//! its text, `\n` for the end of a line.
#![tactic(auto)]

mod asking;
mod listing;

use listing::listings_text;
use std::io;

fn main(rt: HostRuntime) -> io::Result<()> {
    let alloc = rt.alloc();
    let text = io::read_to_string(alloc, rt.stdin())?;
    for block in text.as_str().split("---\n") {
        let said = listings_text(alloc, block)?;
        rt.print(said.as_str())?;
    }
    Ok(())
}
