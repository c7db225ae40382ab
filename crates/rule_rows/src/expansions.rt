//! Rows of records: the tree of a record of a file, whose last record has the number 1.
use expansion_laws::{PlainRecord, PlainUse, PlainUses, Tree, TreeUse};
use location_words::Word;
use orientation::{Kind, Turn};
use std::alloc::Global;
use tree_texts::{
    Missed, cut, cut_if, digits, kind, number, place, record_tree, root_said, small, without_sign,
};

/// The use `-2@3^1`: reversed, of the record 2, at the datum 3.
fn plain_use(alloc: Global, text: &str) -> Result<PlainUse, Missed> {
    let (front, back) = cut_if(text, "@");
    let word = match back {
        Some(text) => place(alloc, text)?,
        None => Word::identity(alloc),
    };
    let (turn, name) = without_sign(front.as_bytes());
    Ok(PlainUse {
        turn: turn.unwrap_or(Turn::Forward),
        word,
        number: digits(name)?,
    })
}

/// Uses with spaces between them.
fn plain_uses(alloc: Global, text: Option<&str>) -> Result<PlainUses, Missed> {
    let mut uses = PlainUses::new(alloc);
    if let Some(text) = text {
        for one in text.split(" ") {
            uses.push(plain_use(alloc, one)?)?;
        }
    }
    Ok(uses)
}

/// The forward use of a tree under no word.
fn bare(alloc: Global, tree: Tree) -> Result<TreeUse, Missed> {
    Ok(TreeUse {
        turn: Turn::Forward,
        word: Word::identity(alloc),
        tree: Box::new(alloc, tree)?,
    })
}

/// The tree of a record, or why there is none.
fn expanded(
    alloc: Global,
    records: &[PlainRecord],
    kinds: &[Kind],
    number: u32,
    budget: u64,
) -> Result<String, Missed> {
    match record_tree(alloc, records, number, budget)? {
        Ok(tree) => root_said(alloc, kinds, Ok(bare(alloc, tree)?)),
        Err(fault) => root_said(alloc, kinds, Err(fault)),
    }
}

/// `NUMBER within BUDGET ; RECORD ; ..`, with the records in file order, each the letters of its kind and its uses.
pub(crate) fn of_expand(alloc: Global, row: &str) -> Result<String, Missed> {
    let (asked, texts) = cut(row, " ; ")?;
    let (first, budget) = cut(asked, " within ")?;
    let mut kinds = Vec::new(alloc);
    let mut records = Vec::new(alloc);
    for text in texts.split(" ; ") {
        let (name, uses) = cut_if(text, " ");
        kinds.push(kind(name.as_bytes())?)?;
        let uses = plain_uses(alloc, uses)?;
        records.push(PlainRecord { uses })?;
    }
    kinds.reverse();
    let (records, kinds) = (records.as_slice(), kinds.as_slice());
    expanded(alloc, records, kinds, small(first)?, number(budget)?)
}
