//! A file that is read and loaded.
ghost use Rattle.brep_file.specs.Sound.{IsSound, IsWithinLimits};
ghost use Rattle.std.specs.Prelude.{◌<◌, IfOk};

use crate::plans::plan_text;
use brep_file::laws::reading_is_exact;
use brep_file::{File, read_file};
use brep_tokens::ReadStop;
use file_loading::load_file;
use location_words::Words;
use shape_pool::Pool;
use std::alloc::{AllocError, Global};

/// The file of a text.
fn file_of(alloc: Global, bytes: Vec<u8>) -> Result<File, ReadStop>
    ensures sound { IfOk result IsSound }
    ensures within { IfOk result IsWithinLimits }
{
    reading_is_exact();
    read_file(alloc, bytes)
}

/// What is written of a file in version 1 or in its own, by a desk whose calls move so many bytes.
fn written_text(alloc: Global, file: &File, first: bool, piece: usize) -> Result<String, AllocError>
    requires sound { IsSound file.now }
    requires within { IsWithinLimits file.now }
    requires some { 0 < piece }
{
    let mut pool = Pool::new(alloc)?;
    let mut words = Words::new(alloc)?;
    let root = load_file(alloc, file, &mut pool, &mut words)?;
    let version = if first { 1 } else { file.version };
    plan_text(alloc, file, &pool, &words, root, version, piece)
}

/// What is said of a row: its first line has `1` where the file is to be written in version 1, and else `own`, and
/// `bytewise` where a call of the desk moves one byte; the file is what follows.
pub(crate) fn row_text(alloc: Global, row: &str) -> Result<String, AllocError> {
    match row.split_once('\n') {
        Some((how, text)) => {
            let piece = if how.contains('b') { 1 } else { 4096 };
            match file_of(alloc, text.as_bytes().to_vec(alloc)?) {
                Ok(file) => written_text(alloc, &file, how.contains('1'), piece),
                Err(ReadStop::Fault(fault)) => format!(in alloc; "fault at {}\n", fault.offset),
                Err(ReadStop::NoMemory) => Err(AllocError),
            }
        }
        None => format!(in alloc; "no file\n"),
    }
}
