//! A plan, carried out over a desk in memory.
ghost use Rattle.brep_file.specs.Sound.{IsSound};
ghost use Rattle.brep_writer.specs.Plans.{IsPlan};
ghost use Rattle.file_loading.specs.Loading.{HasOriginsOf, IsLoadedFrom};
ghost use Rattle.std.specs.Prelude.{◌<◌, ◌≤◌, length};
ghost use Rattle.written_heads.specs.Versions.{IsOutputOf};

use brep_desk::{Desk, MemoryDesk};
use brep_file::File;
use brep_writer::WritePlan;
use location_words::Words;
use shape_pool::{NodeId, Pool, UseOf};
use std::alloc::{AllocError, Global};

/// Appends the number that a node is written with, and of which record it comes.
fn add_number(
    text: &mut String,
    alloc: Global,
    plan: &WritePlan<'_>,
    id: u32,
) -> Result<(), AllocError>
    requires plan { IsPlan plan.now }
    requires id { id < length plan.now.source.pool.now }
{
    match plan.number(NodeId(id)) {
        Some(number) => text.push_str(format!(in alloc; " {id}:{number}")?.as_str()),
        None => text.push_str(format!(in alloc; " {id}:-")?.as_str()),
    }
}

/// How many records are written, and the number of each node of a pool.
fn numbers_text(alloc: Global, plan: &WritePlan<'_>, nodes: u32) -> Result<String, AllocError>
    requires plan { IsPlan plan.now }
    requires nodes { nodes ≤ length plan.now.source.pool.now }
{
    let mut text = String::new(alloc);
    text.push_str(format!(in alloc; "records {} nodes", plan.records())?.as_str())?;
    for id in 0..nodes {
        add_number(&mut text, alloc, plan, id)?;
    }
    text.push_str("\n")?;
    Ok(text)
}

/// What a plan writes over a desk in memory whose calls move so many bytes, with the length that it answers.
fn emitted_text(alloc: Global, plan: &WritePlan<'_>, piece: usize) -> Result<String, AllocError>
    requires plan { IsPlan plan.now }
    requires some { 0 < piece }
{
    let mut desk = MemoryDesk::new(alloc, Vec::new(alloc), Vec::new(alloc), piece);
    let mut text = String::new(alloc);
    match desk.begin_write("out") {
        Ok(c) => match plan.emit(&mut desk, c) {
            Ok(taken) => text.push_str(format!(in alloc; "length {taken}\n")?.as_str())?,
            Err(stop) => text.push_str(format!(in alloc;
                "stopped after {}\n",
                stop.taken
            )?.as_str())?,
        },
        Err(_) => text.push_str("not begun\n")?,
    }
    if let Some(bytes) = desk.written("out") {
        for b in bytes {
            text.push(char::from(*b))?;
        }
    }
    Ok(text)
}

/// The numbers and the text of a plan.
pub(crate) fn plan_text(
    alloc: Global,
    file: &File,
    pool: &Pool,
    words: &Words,
    root: UseOf,
    version: u8,
    piece: usize,
) -> Result<String, AllocError>
    requires sound { IsSound file.now }
    requires loaded { IsLoadedFrom file.now words.now pool.now }
    requires root { root.id.0 < length pool.now }
    requires place { root.place.0 < length words.now }
    requires origins { HasOriginsOf file.now pool.now root.id.0 }
    requires version { IsOutputOf file.now.version version }
    requires some { 0 < piece }
{
    let plan = WritePlan::new(alloc, file, pool, words, root, version)?;
    let mut text = numbers_text(alloc, &plan, pool.mark())?;
    text.push_str(emitted_text(alloc, &plan, piece)?.as_str())?;
    Ok(text)
}
