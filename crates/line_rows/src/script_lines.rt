//! Rows of script lines: what a line asks for, the line that is written for that, and the lines of a text.

use crate::commands::{add_command, add_fault};
use crate::saying::add_number;
use row_parts::Row;
use script_text::{line_count, lines_of, parse, spell};
use std::alloc::{AllocError, Global};

/// The answer to a row of this module. Its numbers are those of the records and of the locations of a file.
pub fn answer(alloc: Global, row: &Row<'_>, text: &str) -> Result<Option<String>, AllocError> {
    let shapes = row.first.unwrap_or(0).min(4_294_967_295) as u32;
    let locations = row.second.unwrap_or(0).min(4_294_967_295) as u32;
    let said = match row.word {
        "line" => asked(alloc, text.as_bytes(), shapes, locations)?,
        "written-line" => written(alloc, text, shapes, locations)?,
        "lines" => lines_said(alloc, text)?,
        "script" => script_said(alloc, text, shapes, locations)?,
        _ => return Ok(None),
    };
    Ok(Some(said))
}

/// What a line asks for, or why it is refused.
fn asked(alloc: Global, line: &[u8], shapes: u32, locations: u32) -> Result<String, AllocError> {
    let mut said = String::new(alloc);
    match parse(alloc, line, shapes, locations) {
        Ok(None) => said.push_str(" nothing")?,
        Ok(Some(command)) => add_command(&mut said, alloc, &command)?,
        Err(fault) => add_fault(&mut said, alloc, fault)?,
    }
    Ok(said)
}

/// The line that is written for what a line asks for.
fn line_again(
    alloc: Global,
    line: &str,
    shapes: u32,
    locations: u32,
) -> Result<Option<Vec<u8>>, AllocError> {
    match parse(alloc, line.as_bytes(), shapes, locations) {
        Ok(Some(command)) => Ok(Some(spell(alloc, &command)?)),
        _ => Ok(None),
    }
}

/// The same as text, where it asks for the same.
fn written(alloc: Global, line: &str, shapes: u32, locations: u32) -> Result<String, AllocError> {
    match line_again(alloc, line, shapes, locations)? {
        None => String::from_str(alloc, "no command"),
        Some(again) => {
            let first = asked(alloc, line.as_bytes(), shapes, locations)?;
            let second = asked(alloc, again.as_slice(), shapes, locations)?;
            if first.as_str() == second.as_str() {
                String::from_str(alloc, str::from_utf8(again.as_slice()).unwrap_or("?"))
            } else {
                String::from_str(alloc, "it asks for something else")
            }
        }
    }
}

/// How many lines a text has, and the lines with a mark behind each.
fn lines_said(alloc: Global, text: &str) -> Result<String, AllocError> {
    let mut said = String::new(alloc);
    add_number(&mut said, alloc, line_count(text.as_bytes()))?;
    said.push_str(":")?;
    for line in lines_of(text.as_bytes()) {
        said.push_str(str::from_utf8(line).unwrap_or("?"))?;
        said.push_str(";")?;
    }
    Ok(said)
}

/// What each line of a script asks for.
fn script_said(
    alloc: Global,
    text: &str,
    shapes: u32,
    locations: u32,
) -> Result<String, AllocError> {
    let mut said = String::new(alloc);
    for line in lines_of(text.as_bytes()) {
        said.push_str(asked(alloc, line, shapes, locations)?.as_str())?;
        said.push_str(";")?;
    }
    Ok(said)
}
