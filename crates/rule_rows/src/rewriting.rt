//! Rows of trees: whether two are one, and what a step makes of a root.
use expansion_laws::{SlowRequest, TreeUse, rewrite_slow, same_tree};
use orientation::Rule;
use std::alloc::Global;
use tree_texts::{Kinds, Missed, cut, cut_if, kind, number, place, root_said, tree, turn_at, yes};

/// `TREE , TREE`: whether the two trees are one, whatever their turns and words are.
pub(crate) fn of_same(alloc: Global, row: &str) -> Result<String, Missed> {
    let (first, second) = cut(row, " , ")?;
    let mut kinds = Kinds::new(alloc);
    let a = tree(alloc, first, &mut kinds)?;
    let b = tree(alloc, second, &mut kinds)?;
    yes(alloc, same_tree(&a.tree, &b.tree))
}

/// What a row says of a step.
#[derive(Drop)]
struct Told {
    alloc: Global,
    kinds: Kinds,
    requests: Vec<SlowRequest>,
    rule: Rule,
    visits: u64,
}

impl Told {
    /// A request for `TREE` or `TREE at PLACE`; a sign before the tree asks for that accumulated turn.
    fn ask(&mut self, source: &str, target: Option<TreeUse>) -> Result<(), Missed> {
        let (shape, at) = cut_if(source, " at ");
        let one = tree(self.alloc, shape, &mut self.kinds)?;
        let place = match at {
            Some(text) => Some(place(self.alloc, text)?),
            None => None,
        };
        self.requests.push(SlowRequest {
            source: Box::into_inner(one.tree),
            place,
            turn: turn_at(shape),
            target,
        })?;
        Ok(())
    }

    /// A request that replaces.
    fn replace(&mut self, text: &str) -> Result<(), Missed> {
        let (source, by) = cut(text, " by ")?;
        let target = tree(self.alloc, by, &mut self.kinds)?;
        self.ask(source, Some(target))
    }

    /// Takes a part of the row.
    fn take(&mut self, part: &str) -> Result<(), Missed> {
        let (what, rest) = cut_if(part, " ");
        let text = rest.unwrap_or("");
        match what {
            "remove" => self.ask(text, None),
            "replace" => self.replace(text),
            "until" => {
                self.rule.stop = kind(text.as_bytes())?;
                Ok(())
            }
            "prune" => {
                self.rule.prune = true;
                Ok(())
            }
            "visits" => {
                self.visits = number(text)?;
                Ok(())
            }
            _ => Err(Missed::Unclear),
        }
    }
}

/// `ROOT ; PART ; ..`, where a part is `remove SOURCE`, `replace SOURCE by TARGET`, `until KIND`, `prune` or
/// `visits N`. There are at most 200 visits where the row has no number.
pub(crate) fn of_rewrite(alloc: Global, row: &str) -> Result<String, Missed> {
    let (first, parts) = cut_if(row, " ; ");
    let mut told = Told {
        alloc,
        kinds: Kinds::new(alloc),
        requests: Vec::new(alloc),
        rule: Rule::usual(),
        visits: 200,
    };
    let root = tree(alloc, first, &mut told.kinds)?;
    if let Some(parts) = parts {
        for part in parts.split(" ; ") {
            told.take(part)?;
        }
    }
    let kinds = told.kinds.all(alloc)?;
    let requests = told.requests.as_slice();
    let new = rewrite_slow(
        alloc,
        &root,
        requests,
        kinds.as_slice(),
        told.rule,
        told.visits,
    );
    root_said(alloc, kinds.as_slice(), new)
}
