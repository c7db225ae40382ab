//! Rewrites small files by the whole program and by the plain rule on trees, and tells whether the two agree.
//!
//! A line `file ROOT: RECORD ; RECORD ; ..` gives a file by its root use and its records. A line `case TITLE: COMMAND ;
//! COMMAND ; ..` gives the script of a step on it, and is answered on a line of its own.
#![tactic(auto)]

mod comparing;
mod counting;
mod file_text;
mod made;
mod origins;
mod shapes;
mod steps;

use comparing::compared;
use file_text::file_text;
use std::alloc::Global;
use std::io;
use tree_texts::{Missed, cut, said};

/// The lines of a script whose commands have ` ; ` between them.
fn script_text(alloc: Global, commands: &str) -> Result<String, Missed> {
    let mut text = String::new(alloc);
    for command in commands.split(" ; ") {
        text.push_str(command)?;
        text.push_str("\n")?;
    }
    Ok(text)
}

/// What comes of the step of a case on a file.
fn answer(alloc: Global, file: &str, case: &str) -> Result<String, Missed> {
    let (_, commands) = cut(case, ": ")?;
    let text = file_text(alloc, file)?;
    let script = script_text(alloc, commands)?;
    compared(alloc, text.as_str(), script.as_str())
}

/// The answer to a case.
fn answered(alloc: Global, file: &str, case: &str) -> Result<String, Missed> {
    match answer(alloc, file, case) {
        Ok(text) => Ok(text),
        Err(Missed::Unclear) => said(alloc, "?"),
        Err(Missed::NoMemory) => said(alloc, "no memory"),
    }
}

fn main(rt: HostRuntime) -> io::Result<()> {
    let alloc = rt.alloc();
    let text = io::read_to_string(alloc, rt.stdin())?;
    let mut file = "";
    for line in text.lines() {
        println!(rt; "{line}")?;
        if let Some(given) = line.strip_prefix("file ") {
            file = given;
        }
        if let Some(case) = line.strip_prefix("case ") {
            match answered(alloc, file, case) {
                Ok(answer) => println!(rt; "  {answer}")?,
                Err(_) => println!(rt; "  no memory")?,
            }
        }
    }
    Ok(())
}
