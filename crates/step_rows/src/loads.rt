//! A file that is read and loaded.
ghost use Rattle.brep_file.specs.Sound.{IsSound, IsWithinLimits};
ghost use Rattle.shape_pool.specs.Rows.{HasPlaces};
ghost use Rattle.std.specs.Prelude.{◌<◌, IfOk, length};

use crate::asking::asked_by;
use crate::saying::{add_node, add_number, add_use};
use crate::steps::add_step;
use brep_file::laws::reading_is_exact;
use brep_file::{File, read_file};
use brep_tokens::ReadStop;
use file_loading::load_file;
use location_words::Words;
use shape_pool::{Pool, UseOf};
use std::alloc::{AllocError, Global};

/// The file of a text.
fn file_of(alloc: Global, bytes: Vec<u8>) -> Result<File, ReadStop>
    ensures sound { IfOk result IsSound }
    ensures within { IfOk result IsWithinLimits }
{
    reading_is_exact();
    read_file(alloc, bytes)
}

/// Appends the root use, and each node: its number, its kind, its record and its uses.
fn add_nodes(
    text: &mut String,
    alloc: Global,
    pool: &Pool,
    words: &Words,
    root: UseOf,
) -> Result<(), AllocError> {
    text.push_str("root")?;
    add_use(text, alloc, words, root)?;
    text.push_str("\n")?;
    for id in 0..pool.mark() {
        add_node(text, alloc, pool, words, id)?;
    }
    Ok(())
}

/// Appends what comes of the step of a script.
fn add_script(
    text: &mut String,
    alloc: Global,
    file: &File,
    pool: &mut Pool,
    words: &mut Words,
    root: UseOf,
    lines: &str,
) -> Result<(), AllocError>
    requires root { root.id.0 < length pool.old }
    requires place { root.place.0 < length words.old }
    requires places { HasPlaces pool.old (length words.old) }
{
    let asked = asked_by(alloc, file, pool, words, lines)?;
    match asked.refused {
        Some(number) => {
            text.push_str("not taken: line")?;
            add_number(text, alloc, number)?;
            text.push_str("\n")
        }
        None => add_step(text, alloc, pool, words, &asked.table, root),
    }
}

/// The root use of a file that is loaded into a pool and its nodes. Then what comes of the step of a script, if there is
/// one.
fn nodes_text(alloc: Global, file: &File, script: Option<&str>) -> Result<String, AllocError>
    requires sound { IsSound file.now }
    requires within { IsWithinLimits file.now }
{
    let mut pool = Pool::new(alloc)?;
    let mut words = Words::new(alloc)?;
    let root = load_file(alloc, file, &mut pool, &mut words)?;
    let mut text = String::new(alloc);
    add_nodes(&mut text, alloc, &pool, &words, root)?;
    if let Some(lines) = script {
        add_script(&mut text, alloc, file, &mut pool, &mut words, root, lines)?;
    }
    Ok(text)
}

/// What is said of a part: a file, and perhaps a script behind it.
pub(crate) fn part_text(alloc: Global, part: &str) -> Result<String, AllocError> {
    let (file, script) = match part.split_once("...\n") {
        Some((file, lines)) => (file, Some(lines)),
        None => (part, None),
    };
    match file_of(alloc, file.as_bytes().to_vec(alloc)?) {
        Ok(file) => nodes_text(alloc, &file, script),
        Err(ReadStop::Fault(fault)) => {
            let mut text = String::new(alloc);
            text.push_str("fault at")?;
            add_number(&mut text, alloc, fault.offset)?;
            text.push_str("\n")?;
            Ok(text)
        }
        Err(ReadStop::NoMemory) => Err(AllocError),
    }
}
