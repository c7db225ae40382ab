//! The listings of a file that rows ask for.
ghost use Rattle.brep_file.specs.Sound.{IsSound, IsWithinLimits};
ghost use Rattle.std.specs.Prelude.{IfOk};

use crate::asking::listing_of;
use brep_file::laws::reading_is_exact;
use brep_file::{File, read_file};
use brep_tokens::ReadStop;
use shape_listing::{ListingFault, listing_text};
use std::alloc::{AllocError, Global};

/// The file of a text.
fn file_of(alloc: Global, bytes: Vec<u8>) -> Result<File, ReadStop>
    ensures sound { IfOk result IsSound }
    ensures within { IfOk result IsWithinLimits }
{
    reading_is_exact();
    read_file(alloc, bytes)
}

/// Appends a text, with `\n` for the end of a line.
fn add_shown(all: &mut String, text: &[u8]) -> Result<(), AllocError> {
    for b in text {
        if *b == b'\n' {
            all.push_str("\\n")?;
        } else {
            all.push(char::from(*b))?;
        }
    }
    Ok(())
}

/// Appends what a listing is refused for.
fn add_fault(all: &mut String, alloc: Global, fault: ListingFault) -> Result<(), AllocError> {
    let told = match fault {
        ListingFault::Keys(count) => format!(in alloc; "limit keys {count}")?,
        ListingFault::WordPairs(count) => format!(in alloc; "limit word-pairs {count}")?,
        ListingFault::WordPower(count) => format!(in alloc; "limit word-power {count}")?,
        ListingFault::Pairs(count) => format!(in alloc; "limit pairs {count}")?,
        ListingFault::NoMemory => return all.push_str("no memory"),
    };
    all.push_str(told.as_str())
}

/// Appends a row with its answer.
fn add_answer(all: &mut String, alloc: Global, file: &File, row: &str) -> Result<(), AllocError>
    requires sound { IsSound file.now }
    requires within { IsWithinLimits file.now }
{
    all.push_str(row)?;
    let Some(listing) = listing_of(row) else {
        return all.push_str("\n");
    };
    all.push_str(" -> ")?;
    match listing_text(alloc, file, listing) {
        Ok(text) => add_shown(all, text.as_slice())?,
        Err(fault) => add_fault(all, alloc, fault)?,
    }
    all.push_str("\n")
}

/// The rows before a file, each with its answer.
fn rows_text(alloc: Global, rows: &str, file: &File) -> Result<String, AllocError>
    requires sound { IsSound file.now }
    requires within { IsWithinLimits file.now }
{
    let mut all = String::new(alloc);
    for row in rows.lines() {
        add_answer(&mut all, alloc, file, row)?;
    }
    Ok(all)
}

/// The rows of a part of the input, each with its answer, by the file that stands behind them.
pub(crate) fn listings_text(alloc: Global, part: &str) -> Result<String, AllocError> {
    let Some((rows, _)) = part.split_once("CASCADE") else {
        return String::from_str(alloc, part);
    };
    match file_of(alloc, part.as_bytes().to_vec(alloc)?) {
        Ok(file) => rows_text(alloc, rows, &file),
        Err(ReadStop::Fault(fault)) => format!(in alloc; "fault at {}\n", fault.offset),
        Err(ReadStop::NoMemory) => Err(AllocError),
    }
}
