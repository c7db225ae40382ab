//! Reads a file whose bytes come piece by piece.
ghost use Rattle.brep_file.specs.Feeding.{Finishes, Gathers, fed};
ghost use Rattle.brep_file.specs.FileReading.{read_text};
ghost use Rattle.brep_file.specs.Sound.{file_limits};
ghost use Rattle.std.specs.Prelude.{◌≡◌, ◌+◌, ◌<◌, ◌^◌, [], false, length};

use crate::file::File;
use crate::reader::read_file;
use brep_tokens::ReadStop;
use std::alloc::Global;

/// Gathers the bytes of a file, and reads it when all have come.
#[derive(Drop)]
pub struct FileReader {
    alloc: Global,
    bytes: Vec<u8>,
    stopped: bool,
}

impl FileReader {
    /// No byte has come yet.
    pub fn new(alloc: Global) -> FileReader
        ensures fed { fed result ≡ [] }
        ensures going { result.stopped ≡ false }
    {
        FileReader {
            alloc,
            bytes: Vec::new(alloc),
            stopped: false,
        }
    }

    /// The next piece of the file. Its faults are held back to `finish`: the only answer but `Ok` is want of memory,
    /// and then each further piece has it too.
    pub fn feed(&mut self, piece: &[u8]) -> Result<(), ReadStop>
        requires few { length (fed self.old) + length piece.now < 2 ^ 64 }
        ensures { Gathers piece.now self.old self.new result }
    {
        if self.stopped {
            return Err(ReadStop::NoMemory);
        }
        match self.bytes.extend_from_slice(piece) {
            Ok(()) => Ok(()),
            Err(_) => {
                self.stopped = true;
                Err(ReadStop::NoMemory)
            }
        }
    }

    /// All bytes have come: the file that they spell, or the fault of the first token that isn't accepted. After want
    /// of memory nothing is read.
    pub fn finish(self) -> Result<File, ReadStop>
        ensures { Finishes self result (read_text file_limits (fed self)) }
    {
        if self.stopped {
            return Err(ReadStop::NoMemory);
        }
        read_file(self.alloc, self.bytes)
    }
}
