//! Plain trees, in which nothing is shared.
ghost use Rattle.std.specs.Prelude.{◌≡◌, IfOk, map};
ghost use Rattle.expansion_laws.specs.Trees.{a_single, uses_of};
ghost use Rattle.expansion_laws.specs.Equality.{tree_eq, use_eq, uses_eq};
ghost use Rattle.expansion_laws.specs.Plain.{shown_tree, shown_use};

use location_words::Word;
use orientation::Turn;
use std::alloc::{AllocError, Global};

/// A tree: an origin, which is the number of an input record or 0 for a compound made at the root, and uses in their
/// order.
#[derive(Drop)]
#[cycle(plain)]
pub struct Tree {
    pub origin: u32,
    pub uses: Vec<TreeUse>,
}

/// A use of a tree: how it is turned, the word of its location, and the tree.
#[derive(Drop)]
#[cycle(plain)]
pub struct TreeUse {
    pub turn: Turn,
    pub word: Word,
    pub tree: Box<Tree>,
}

/// Whether two trees are one: equal origins and equal uses in the same order.
#[cycle(same)]
pub fn same_tree(a: &Tree, b: &Tree) -> bool
    ensures { result ≡ tree_eq (shown_tree a.now) (shown_tree b.now) }
{
    a.origin == b.origin && same_uses(&a.uses, &b.uses)
}

/// Whether two lists of uses are one.
#[cycle(same)]
fn same_uses(a: &[TreeUse], b: &[TreeUse]) -> bool
    ensures { result ≡ uses_eq (uses_of (map shown_use a.now)) (uses_of (map shown_use b.now)) }
{
    if a.len() != b.len() {
        return false;
    }
    for i in 0..a.len() {
        if !same_use(&a[i], &b[i]) {
            return false;
        }
    }
    true
}

/// Whether two uses are one.
#[cycle(same)]
fn same_use(a: &TreeUse, b: &TreeUse) -> bool
    ensures { result ≡ use_eq (shown_use a.now) (shown_use b.now) }
{
    a.turn == b.turn && a.word == b.word && same_tree(&a.tree, &b.tree)
}

/// A copy of a tree.
#[cycle(copied)]
pub(crate) fn copied(alloc: Global, tree: &Tree) -> Result<Tree, AllocError>
    ensures { IfOk result (λ copy. shown_tree copy ≡ shown_tree tree.now) }
{
    let uses = copied_uses(alloc, &tree.uses)?;
    Ok(Tree {
        origin: tree.origin,
        uses,
    })
}

/// Copies of uses, in order.
#[cycle(copied)]
fn copied_uses(alloc: Global, uses: &[TreeUse]) -> Result<Vec<TreeUse>, AllocError>
    ensures { IfOk result (λ copies. map shown_use copies.items ≡ map shown_use uses.now) }
{
    let mut copies = Vec::new(alloc);
    for i in 0..uses.len() {
        let tree = copied(alloc, &uses[i].tree)?;
        let copy = use_of(alloc, uses[i].turn, &uses[i].word, tree)?;
        copies.push(copy)?;
    }
    Ok(copies)
}

/// A use of a tree, under a copy of a word.
pub(crate) fn use_of(
    alloc: Global,
    turn: Turn,
    word: &Word,
    tree: Tree,
) -> Result<TreeUse, AllocError>
    ensures { IfOk result (λ u. shown_use u ≡ a_single turn word.now (shown_tree tree)) }
{
    let word = word.clone()?;
    let tree = Box::new(alloc, tree)?;
    Ok(TreeUse { turn, word, tree })
}
