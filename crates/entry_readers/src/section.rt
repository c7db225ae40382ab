//! A section: so many entries of one kind.
ghost use Rattle.std.specs.Prelude.{◌≡◌, ◌<◌, [], ◌∷◌, ◌++◌, Err, OnOk};
ghost use Rattle.entry_readers.specs.Entries.{entries_from, entries_left};
ghost use Rattle.entry_readers.specs.Reading.{more};
ghost use Rattle.entry_readers.specs.Takes.{HasRead, ReadsAs, Takes};

use crate::entry::EntryReader;
use brep_tokens::{Progress, ReadStop, Token};
use std::alloc::{AllocError, Global};
use std::mem;

/// Appends an entry.
fn append<T: Drop>(entries: &mut Vec<T>, entry: T) -> Result<(), AllocError>
    ensures { OnOk result (entries.new.items ≡ entries.old.items ++ entry ∷ []) }
{
    entries.push(entry).map_err(AllocError::from)
}

/// Takes the tokens of so many entries. The number that a file claims takes no memory before its entries come.
#[derive(Drop)]
pub struct Section<R: EntryReader> {
    entries: Vec<R::Entry>,
    due: u64,
    reader: R,
    alloc: Global,
}

impl<R: EntryReader> Section<R> {
    /// No token was taken yet.
    pub fn new(alloc: Global, due: u64) -> Section<R>
        requires { 0 < due }
        ensures left { ReadsAs (entries_left R.read (R.left result.reader) result.entries.items result.due)
            (entries_from R.read [] due) }
        ensures waits { (0 < result.due) × R.waits result.reader }
        ensures open { entries_left R.read (R.left result.reader) result.entries.items result.due [] ≡ Err more }
    {
        Section {
            entries: Vec::new(alloc),
            due,
            reader: R::begin(alloc),
            alloc,
        }
    }

    /// Takes a token.
    pub fn take(&mut self, t: &Token) -> Result<Progress, ReadStop>
        requires due { 0 < self.old.due }
        requires waits { R.waits self.old.reader }
        ensures { Takes (entries_left R.read (R.left self.old.reader) self.old.entries.items self.old.due) t.now
            (entries_left R.read (R.left self.new.reader) self.new.entries.items self.new.due)
            ((0 < self.new.due) × R.waits self.new.reader) (self.new.due ≡ 0) result }
    {
        match self.reader.take_token(t)? {
            Progress::More => Ok(Progress::More),
            Progress::Whole => {
                let reader = mem::replace(&mut self.reader, R::begin(self.alloc));
                append(&mut self.entries, reader.finish())?;
                self.due -= 1;
                if self.due == 0 {
                    Ok(Progress::Whole)
                } else {
                    Ok(Progress::More)
                }
            }
        }
    }

    /// The entries.
    pub fn done(self) -> Vec<R::Entry>
        requires { self.due ≡ 0 }
        ensures { HasRead (entries_left R.read (R.left self.reader) self.entries.items self.due) result.items }
    {
        self.entries
    }
}
