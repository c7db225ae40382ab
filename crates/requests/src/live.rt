//! The live requests of each node, found by its number.
ghost use Rattle.std.specs.Prelude.{◌≡◌, ◌<◌, ◌≤◌, OnOk, OnErr, ℕ, length};
ghost use Rattle.requests.specs.Numbered.{last_allowed, with_live};
ghost use Rattle.requests.specs.Indexed.{list_at, listed_at, IsSpared, ListsAlike, ListsOthersAlike, ListsToo};

use crate::request::Request;
use indexmap::IndexSet;
use location_words::WordId;
use orientation::Turn;
use std::alloc::AllocError;

/// Adds a request to the live ones of its node: after them, or in their place where it is unconditional.
fn append(live: &mut Vec<Request>, r: Request) -> Result<(), AllocError>
    ensures ok { OnOk result (live.new.items ≡ with_live live.old.items r) }
    ensures err { OnErr result (live.new.items ≡ live.old.items) }
{
    if r.is_unconditional() && !live.is_empty() {
        live.truncate(1);
        live[0] = r;
        return Ok(());
    }
    live.push(r).map_err(AllocError::from)
}

/// Sees that there is an empty list for one more source.
fn make_room(live: &mut Vec<Vec<Request>>, sources: usize) -> Result<(), AllocError>
    requires { sources ≤ length live.old.items }
    ensures same { (k : ℕ) → list_at live.new.items k ≡ list_at live.old.items k }
    ensures kept { sources ≤ length live.new.items }
    ensures room { OnOk result (sources < length live.new.items) }
{
    if live.len() > sources {
        return Ok(());
    }
    let none = Vec::new(*live.allocator());
    live.push(none).map_err(AllocError::from)
}

/// Adds a request to the live ones of its node, which are listed at the node's place among the sources.
pub(crate) fn note(
    sources: &mut IndexSet<u32>,
    live: &mut Vec<Vec<Request>>,
    r: Request,
) -> Result<(), AllocError>
    requires spared { IsSpared sources.old.keys live.old.items }
    ensures spared { IsSpared sources.new.keys live.new.items }
    ensures source { OnOk result (ListsToo r sources.old.keys live.old.items sources.new.keys live.new.items) }
    ensures others { ListsOthersAlike r.source.0 sources.old.keys live.old.items sources.new.keys live.new.items }
    ensures err { OnErr result (ListsAlike sources.old.keys live.old.items sources.new.keys live.new.items) }
{
    make_room(live, sources.len())?;
    let (place, _) = sources.insert_full(r.source.0)?;
    append(&mut live[place], r)
}

/// The live requests of a node.
pub(crate) fn live_of<'a>(
    sources: &IndexSet<u32>,
    live: &'a [Vec<Request>],
    id: u32,
) -> &'a [Request]
    requires { IsSpared sources.now.keys live.now }
    ensures { result.now ≡ listed_at sources.now.keys live.now id }
{
    match sources.get_index_of(&id) {
        Some(place) => live[place].as_slice(),
        None => &[],
    }
}

/// The last of the requests that allows a turn and a word.
pub(crate) fn last_allowing(live: &[Request], turn: Turn, word: WordId) -> Option<Request>
    ensures { result ≡ last_allowed live.now turn word.0 }
{
    let mut found = None;
    for r in live {
        if r.allows(turn, word) {
            found = Some(*r);
        }
    }
    found
}
