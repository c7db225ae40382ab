//! The texts of the input: those that are kept, and the files of a row.
use crate::escapes::{numbered, repeated, unescaped};
use crate::numbers::{bytes_of, number_and_rest};
use crate::orders::Give;
use crate::texts::Texts;
use std::alloc::{AllocError, Global};

/// The text that is added to.
#[derive(Clone, Copy)]
enum Open {
    Nothing,
    Kept,
    Row,
}

/// The kept texts, the files of the row, and which text is added to.
#[derive(Drop)]
pub struct Given {
    alloc: Global,
    kept: Texts,
    files: Texts,
    open: Open,
}

impl Given {
    pub fn new(alloc: Global) -> Given {
        Given {
            alloc,
            kept: Texts::new(alloc),
            files: Texts::new(alloc),
            open: Open::Nothing,
        }
    }

    pub fn kept(&self) -> &Texts {
        &self.kept
    }

    pub fn files(&self) -> &Texts {
        &self.files
    }

    /// No text is added to then.
    pub fn end(&mut self) {
        self.open = Open::Nothing;
    }

    /// No files are there then.
    pub fn begin_row(&mut self) {
        self.files = Texts::new(self.alloc);
        self.open = Open::Nothing;
    }

    /// Begins a file of the row.
    pub fn begin_file(&mut self, name: &str) -> Result<(), AllocError> {
        self.open = Open::Row;
        self.files.begin(name)
    }

    fn begin_kept(&mut self, name: &str) -> Result<bool, AllocError> {
        self.open = Open::Kept;
        self.kept.begin(name)?;
        Ok(true)
    }

    /// Adds the bytes; false where no text is added to.
    fn add(&mut self, bytes: &[u8]) -> Result<bool, AllocError> {
        match self.open {
            Open::Kept => {
                self.kept.add(bytes)?;
                Ok(true)
            }
            Open::Row => {
                self.files.add(bytes)?;
                Ok(true)
            }
            Open::Nothing => Ok(false),
        }
    }

    /// Adds a line; false where no text is added to.
    pub fn add_line(&mut self, line: &str) -> Result<bool, AllocError> {
        self.add(line.as_bytes())?;
        self.add(b"\n")
    }

    /// Adds a text with escapes.
    pub fn add_text(&mut self, text: &str) -> Result<bool, AllocError> {
        let bytes = unescaped(self.alloc, text)?;
        self.add(&bytes)
    }

    /// Adds a kept text; false where none has the name.
    pub fn add_kept(&mut self, name: &str) -> Result<bool, AllocError> {
        let bytes = match self.kept.of(name) {
            Some(bytes) => bytes.to_vec(self.alloc)?,
            None => return Ok(false),
        };
        self.add(&bytes)
    }

    fn add_repeated(&mut self, rest: &str) -> Result<bool, AllocError> {
        let Some((times, text)) = number_and_rest(rest) else {
            return Ok(false);
        };
        let bytes = unescaped(self.alloc, text)?;
        let all = repeated(self.alloc, &bytes, times)?;
        self.add(&all)
    }

    fn add_numbered(&mut self, rest: &str) -> Result<bool, AllocError> {
        let Some((first, rest)) = number_and_rest(rest) else {
            return Ok(false);
        };
        let Some((last, text)) = number_and_rest(rest) else {
            return Ok(false);
        };
        let bytes = unescaped(self.alloc, text)?;
        let all = numbered(self.alloc, &bytes, first, last)?;
        self.add(&all)
    }

    fn add_bytes(&mut self, rest: &str) -> Result<bool, AllocError> {
        let bytes = bytes_of(self.alloc, rest)?;
        self.add(&bytes)
    }

    /// Gives a text, or adds to it; false where the order says nothing.
    pub fn give(&mut self, give: Give, rest: &str) -> Result<bool, AllocError> {
        match give {
            Give::Keep => self.begin_kept(rest),
            Give::File => {
                self.begin_file(rest)?;
                Ok(true)
            }
            Give::Use => self.add_kept(rest),
            Give::Text => self.add_text(rest),
            Give::Bytes => self.add_bytes(rest),
            Give::Repeat => self.add_repeated(rest),
            Give::Count => self.add_numbered(rest),
        }
    }
}
