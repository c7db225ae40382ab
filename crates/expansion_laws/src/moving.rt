//! How a rewriting moves uses: the words that it forms are tested against the limits.
ghost use Rattle.std.specs.Prelude.{◌≡◌, ◌∷◌, [], None, map, IfErr, IfOk, OnOk};
ghost use Rattle.location_words.specs.Faults.{fault_of};
ghost use Rattle.location_words.specs.Pairs.{mul as mul_of};
ghost use Rattle.expansion_laws.specs.Trees.{uses};
ghost use Rattle.expansion_laws.specs.Contexts.{carried};
ghost use Rattle.expansion_laws.specs.Steps.{entered, is_entered, kind};
ghost use Rattle.expansion_laws.specs.Plain.{shown_tree, shown_use};
ghost use Rattle.expansion_laws.specs.SlowRewriting.{kind_at};
ghost use Rattle.expansion_laws.specs.SlowCalls.{have_one_kind, use_instead, uses_onward, words_onward};
ghost use Rattle.expansion_laws.specs.SlowParts.{seen_use, step_by, under, words_of, Fail, IsDueWord, Pass};

use crate::fault::ExpandFault;
use crate::plain::{Tree, TreeUse};
use crate::requests::SlowRequest;
use location_words::{Word, WordFault, inverse, mul};
use orientation::{Kind, Rule, Turn, compose};
use std::alloc::{AllocError, Global};

/// What a rewriting goes by.
#[derive(Clone, Copy)]
pub(crate) struct Rules<'a> {
    pub(crate) alloc: Global,
    pub(crate) requests: &'a [SlowRequest],
    pub(crate) kinds: &'a [Kind],
    pub(crate) rule: Rule,
}

/// The accumulated turn and word of a parent.
#[derive(Drop)]
pub(crate) struct Here {
    pub(crate) turn: Turn,
    pub(crate) word: Word,
}

/// A use on the way, whose tree stands elsewhere.
#[derive(Drop)]
pub(crate) struct Seen<'a> {
    pub(crate) turn: Turn,
    pub(crate) word: Word,
    pub(crate) tree: &'a Tree,
}

/// The product of two words, where it is within the limits.
pub(crate) fn tested(outer: &Word, inner: &Word) -> Result<Word, ExpandFault>
    ensures ok { IfOk result (λ w. w ≡ mul_of outer.now inner.now) }
    ensures within { OnOk result (fault_of (mul_of outer.now inner.now) ≡ None) }
    ensures refused { IfErr result (λ fault. IsDueWord (fault_of (mul_of outer.now inner.now)) fault) }
{
    match mul(outer, inner) {
        Ok(word) => Ok(word),
        Err(WordFault::NoMemory) => Err(ExpandFault::NoMemory),
        Err(fault) => Err(ExpandFault::Word(fault)),
    }
}

/// The uses of a tree.
fn own_uses<'a>(alloc: Global, tree: &'a Tree) -> Result<Vec<Seen<'a>>, AllocError>
    ensures { IfOk result (λ own. map seen_use own.items ≡ uses (shown_tree tree.now)) }
{
    let mut own = Vec::new(alloc);
    for u in tree.uses.as_slice() {
        let one = own_use(u)?;
        own.push(one)?;
    }
    Ok(own)
}

/// The uses of a tree that no request meets that are gone through.
pub(crate) fn entered_uses<'a>(rules: &Rules, tree: &'a Tree) -> Result<Vec<Seen<'a>>, AllocError>
    ensures { IfOk result (λ own. map seen_use own.items ≡ entered (step_by rules.now) (shown_tree tree.now)) }
{
    if enters(rules, tree) {
        let own = own_uses(rules.alloc, tree)?;
        return Ok(own);
    }
    Ok(Vec::new(rules.alloc))
}

/// Whether a tree that no request meets is gone through.
pub(crate) fn enters(rules: &Rules, tree: &Tree) -> bool
    ensures { result ≡ is_entered (step_by rules.now) (shown_tree tree.now) }
{
    rules.rule.enters(kind_of(rules.kinds, tree.origin))
}

/// A use as it stands in its tree.
pub(crate) fn own_use<'a>(u: &'a TreeUse) -> Result<Seen<'a>, AllocError>
    ensures { IfOk result (λ one. seen_use one ≡ shown_use u.now) }
{
    let word = u.word.clone()?;
    Ok(Seen {
        turn: u.turn,
        word,
        tree: &u.tree,
    })
}

/// The new use of a replace: under a place the accumulated word of the context is undone first.
pub(crate) fn new_use<'a>(
    here: &Here,
    one: &Seen,
    place: &Option<Word>,
    by: &'a TreeUse,
) -> Result<Seen<'a>, ExpandFault>
    ensures ok { IfOk result (λ new. seen_use new ≡ use_instead here.now one.now place.now by.now) }
    ensures within { OnOk result (fault_of (use_instead here.now one.now place.now by.now).word ≡ None) }
    ensures refused { IfErr result (IsDueWord (fault_of (use_instead here.now one.now place.now by.now).word)) }
{
    let word = match place {
        None => tested(&one.word, &by.word)?,
        Some(_) => match inverse(&here.word) {
            Ok(back) => tested(&back, &by.word)?,
            Err(_) => return Err(ExpandFault::NoMemory),
        },
    };
    Ok(Seen {
        turn: compose(one.turn, by.turn),
        word,
        tree: &by.tree,
    })
}

/// The kind of an origin.
fn kind_of(kinds: &[Kind], origin: u32) -> Kind
    ensures { result ≡ kind_at kinds.now origin }
{
    if origin == 0 {
        return Kind::Co;
    }
    match kinds.get(origin as usize - 1) {
        Some(kind) => *kind,
        None => Kind::Co,
    }
}

/// Whether two trees have one kind.
fn same_kind(rules: &Rules, a: &Tree, b: &Tree) -> bool
    ensures { result ≡ have_one_kind rules.now a.now b.now }
{
    kind_of(rules.kinds, a.origin) == kind_of(rules.kinds, b.origin)
}

/// The uses that go on after a replace: the new use where the kinds are equal, else those of the target under it.
pub(crate) fn onward<'a>(
    rules: &Rules,
    source: &Tree,
    new: &Seen<'a>,
) -> Result<Vec<Seen<'a>>, ExpandFault>
    ensures ok { IfOk result (λ next. map seen_use next.items ≡ uses_onward rules.now source.now new.now) }
    ensures within { OnOk result (Pass (words_onward rules.now source.now new.now)) }
    ensures refused { IfErr result (λ fault. Fail (words_onward rules.now source.now new.now) fault) }
{
    let same = same_kind(rules, source, new.tree);
    if !same {
        let carried = carried_uses(rules.alloc, new)?;
        return Ok(carried);
    }
    match alone(rules.alloc, new) {
        Ok(next) => Ok(next),
        Err(_) => Err(ExpandFault::NoMemory),
    }
}

/// One use, as a list.
fn alone<'a>(alloc: Global, new: &Seen<'a>) -> Result<Vec<Seen<'a>>, AllocError>
    ensures { IfOk result (λ next. map seen_use next.items ≡ seen_use new.now ∷ []) }
{
    let one = Seen {
        turn: new.turn,
        word: new.word.clone()?,
        tree: new.tree,
    };
    let mut next = Vec::new(alloc);
    next.push(one)?;
    Ok(next)
}

/// The uses of a use's tree under that use.
fn carried_uses<'a>(alloc: Global, new: &Seen<'a>) -> Result<Vec<Seen<'a>>, ExpandFault>
    ensures ok { IfOk result (λ next. map seen_use next.items ≡ under (seen_use new.now)) }
    ensures within { OnOk result (Pass (words_of (under (seen_use new.now)))) }
    ensures refused { IfErr result (λ fault. Fail (words_of (under (seen_use new.now))) fault) }
{
    let tree: &'a Tree = new.tree;
    let mut next = Vec::new(alloc);
    for u in tree.uses.as_slice() {
        let one = carried_use(new, u)?;
        if next.push(one).is_err() {
            return Err(ExpandFault::NoMemory);
        }
    }
    Ok(next)
}

/// A use of a use's tree under that use.
fn carried_use<'a>(new: &Seen, u: &'a TreeUse) -> Result<Seen<'a>, ExpandFault>
    ensures ok { IfOk result (λ one. seen_use one ≡ carried new.now.turn new.now.word (shown_use u.now)) }
    ensures within { OnOk result (fault_of (mul_of new.now.word (shown_use u.now).word) ≡ None) }
    ensures refused { IfErr result (λ fault. IsDueWord (fault_of (mul_of new.now.word (shown_use u.now).word)) fault) }
{
    let word = tested(&new.word, &u.word)?;
    Ok(Seen {
        turn: compose(new.turn, u.turn),
        word,
        tree: &u.tree,
    })
}
