//! A file that is read, with the trees of its records.
use brep_file::{File, FileUse, read_file};
use brep_tokens::ReadStop;
use expansion_laws::{ExpandFault, PlainRecord, PlainUse, PlainUses, Tree, TreeUse};
use location_words::Word;
use orientation::Kind;
use std::alloc::Global;
use tree_texts::{Missed, record_tree};

/// How many uses a tree may have.
const MOST_USES: u64 = 1_000;

/// A file, its records without their data, and the kinds of the records by their numbers from 1 on.
#[derive(Drop)]
pub(crate) struct Shapes {
    alloc: Global,
    file: File,
    records: Vec<PlainRecord>,
    kinds: Vec<Kind>,
}

/// The file of a text.
fn file_of(alloc: Global, bytes: &[u8]) -> Result<File, Missed> {
    match read_file(alloc, bytes.to_vec(alloc)?) {
        Ok(file) => Ok(file),
        Err(ReadStop::Fault(_)) => Err(Missed::Unclear),
        Err(ReadStop::NoMemory) => Err(Missed::NoMemory),
    }
}

/// The word of a location.
fn word_of(file: &File, location: u32) -> Result<Word, Missed> {
    if location > file.locations.len() {
        return Err(Missed::Unclear);
    }
    Ok(file.locations.word(location).clone()?)
}

/// The uses of a record, each with the word of its location.
fn plain_uses(alloc: Global, file: &File, uses: &[FileUse]) -> Result<PlainUses, Missed> {
    let mut plain = PlainUses::new(alloc);
    for one in uses {
        plain.push(PlainUse {
            turn: one.turn,
            word: word_of(file, one.location)?,
            number: one.number,
        })?;
    }
    Ok(plain)
}

impl Shapes {
    /// What the bytes spell.
    pub(crate) fn of(alloc: Global, bytes: &[u8]) -> Result<Shapes, Missed> {
        let file = file_of(alloc, bytes)?;
        let mut records = Vec::new(alloc);
        let mut kinds = Vec::new(alloc);
        for record in file.records.as_slice() {
            let uses = plain_uses(alloc, &file, record.uses.as_slice())?;
            records.push(PlainRecord { uses })?;
            kinds.push(record.head.kind)?;
        }
        kinds.reverse();
        Ok(Shapes {
            alloc,
            file,
            records,
            kinds,
        })
    }

    /// How many records there are.
    pub(crate) fn count(&self) -> u32 {
        u32::try_from(self.records.len()).unwrap_or(u32::MAX)
    }

    /// How many locations there are.
    pub(crate) fn locations(&self) -> u32 {
        self.file.locations.len()
    }

    /// The kinds of the records by their numbers from 1 on.
    pub(crate) fn kinds(&self) -> &[Kind] {
        self.kinds.as_slice()
    }

    /// The word of a location.
    pub(crate) fn word(&self, location: u32) -> Result<Word, Missed> {
        word_of(&self.file, location)
    }

    /// The tree of a record.
    pub(crate) fn tree(&self, number: u32) -> Result<Tree, Missed> {
        match record_tree(self.alloc, self.records.as_slice(), number, MOST_USES)? {
            Ok(tree) => Ok(tree),
            Err(ExpandFault::NoMemory) => Err(Missed::NoMemory),
            Err(_) => Err(Missed::Unclear),
        }
    }

    /// A use with its word and its tree.
    pub(crate) fn expanded(&self, one: FileUse) -> Result<TreeUse, Missed> {
        Ok(TreeUse {
            turn: one.turn,
            word: self.word(one.location)?,
            tree: Box::new(self.alloc, self.tree(one.number)?)?,
        })
    }

    /// The root use with its tree.
    pub(crate) fn root(&self) -> Result<TreeUse, Missed> {
        self.expanded(self.file.root)
    }
}
