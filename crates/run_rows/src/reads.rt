//! Files that are read without a desk, whole or in two pieces.
use crate::answers::status_text;
use brep_file::{File, FileReader, read_file};
use brep_run::Outcome;
use brep_tokens::ReadStop;
use std::alloc::{AllocError, Global};

/// What is read of a text that comes in two pieces.
fn in_two(alloc: Global, first: &[u8], second: &[u8]) -> Result<File, ReadStop> {
    let mut reader = FileReader::new(alloc);
    reader.feed(first)?;
    reader.feed(second)?;
    reader.finish()
}

/// A section and how many entries it has.
fn push_section(
    text: &mut String,
    alloc: Global,
    section: &str,
    count: usize,
) -> Result<(), AllocError> {
    text.push_str(section)?;
    let digits = format!(in alloc; "{count}")?;
    text.push_str(digits.as_str())
}

/// How many entries each section of a file has.
fn sections_text(alloc: Global, file: &File) -> Result<String, AllocError> {
    let mut text = String::new(alloc);
    push_section(
        &mut text,
        alloc,
        "Locations ",
        file.locations.len() as usize,
    )?;
    push_section(&mut text, alloc, ", Curve2ds ", file.curve2s.len())?;
    push_section(&mut text, alloc, ", Curves ", file.curves.len())?;
    push_section(&mut text, alloc, ", Polygon3D ", file.polygons.len())?;
    push_section(
        &mut text,
        alloc,
        ", PolygonOnTriangulations ",
        file.polygons_on.len(),
    )?;
    push_section(&mut text, alloc, ", Surfaces ", file.surfaces.len())?;
    push_section(&mut text, alloc, ", Triangulations ", file.meshes.len())?;
    push_section(&mut text, alloc, ", TShapes ", file.records.len())?;
    Ok(text)
}

/// The sections of what is read, or what a run answers to its fault.
fn read_text(alloc: Global, read: Result<File, ReadStop>) -> Result<String, AllocError> {
    match read {
        Ok(file) => sections_text(alloc, &file),
        Err(ReadStop::Fault(fault)) => status_text(alloc, &Outcome::File(fault)),
        Err(ReadStop::NoMemory) => status_text(alloc, &Outcome::NoMemory),
    }
}

/// What is read where no byte comes.
pub(crate) fn nothing_text(alloc: Global) -> Result<String, AllocError> {
    read_text(alloc, FileReader::new(alloc).finish())
}

/// What is read of a whole text.
pub(crate) fn whole_text(alloc: Global, bytes: &[u8]) -> Result<String, AllocError> {
    read_text(alloc, read_file(alloc, bytes.to_vec(alloc)?))
}

/// What is read of a text that comes in two pieces.
pub(crate) fn pieces_text(
    alloc: Global,
    first: &[u8],
    second: &[u8],
) -> Result<String, AllocError> {
    read_text(alloc, in_two(alloc, first, second))
}
