//! Rows about lists of numbers of nodes.

use crate::parse::{Stop, halves, number, put_number};
use shape_pool::{IdPairs, Ids, NodeId};
use std::alloc::Global;

/// The numbers of a text.
fn ids_of(alloc: Global, text: &str) -> Result<Ids, Stop> {
    let mut ids = Ids::new(alloc);
    for one in text.split_whitespace() {
        ids.push(NodeId(number(one)?))?;
    }
    Ok(ids)
}

/// The pairs of a text.
fn pairs_of(alloc: Global, text: &str) -> Result<IdPairs, Stop> {
    let mut pairs = IdPairs::new(alloc);
    for one in text.split_whitespace() {
        let (first, second) = halves(one, '>');
        pairs.push((NodeId(number(first)?), NodeId(number(second)?)))?;
    }
    Ok(pairs)
}

/// Writes the number at a place, or `none`.
fn put_at(out: &mut String, ids: &Ids, at: usize) -> Result<(), Stop> {
    match ids.get(at) {
        Some(id) => put_number(out, u64::from(id.0)),
        None => {
            out.push_str("none")?;
            Ok(())
        }
    }
}

/// The least number, and the greatest that 32 bits have where there is none.
fn least(ids: &[NodeId]) -> NodeId {
    let mut least = NodeId(u32::MAX);
    for id in ids {
        if *id < least {
            least = *id;
        }
    }
    least
}

/// `ids 4 2`: how many numbers the list has, what stands at each place and behind the last, and the least.
pub(crate) fn ids_row(alloc: Global, rest: &str) -> Result<String, Stop> {
    let ids = ids_of(alloc, rest)?;
    let mut out = String::new(alloc);
    put_number(&mut out, ids.len() as u64)?;
    for at in 0..ids.len() {
        out.push_str(" ")?;
        put_at(&mut out, &ids, at)?;
    }
    out.push_str(" then ")?;
    put_at(&mut out, &ids, ids.len())?;
    out.push_str(", least ")?;
    put_number(&mut out, u64::from(least(ids.as_slice()).0))?;
    Ok(out)
}

/// `pairs 4>2`: the pair at the first place, or that there are none.
pub(crate) fn pairs_row(alloc: Global, rest: &str) -> Result<String, Stop> {
    let pairs = pairs_of(alloc, rest)?;
    let mut out = String::new(alloc);
    if pairs.is_empty() {
        out.push_str("empty")?;
    }
    if let Some(pair) = pairs.get(0) {
        let (first, second) = (pair.0, pair.1);
        put_number(&mut out, u64::from(first.0))?;
        out.push_str(">")?;
        put_number(&mut out, u64::from(second.0))?;
    }
    Ok(out)
}
