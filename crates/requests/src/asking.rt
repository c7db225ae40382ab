//! What live requests ask for.
ghost use Rattle.std.specs.Prelude.{◌≡◌, IfOk};
ghost use Rattle.requests.specs.Plans.{asked, asks, has_part};

use crate::request::Request;
use crate::table::RequestTable;
use indexmap::IndexSet;
use shape_pool::NodeId;
use std::alloc::AllocError;

/// A part of an occurrence for which a request may ask.
#[derive(Clone, Copy)]
pub(crate) enum Part {
    Place,
    Turn,
}

/// Whether a request has such a part.
fn has(r: &Request, part: Part) -> bool
    ensures { result ≡ has_part part r.now }
{
    match part {
        Part::Place => r.place.is_some(),
        Part::Turn => r.turn.is_some(),
    }
}

/// Whether one of the requests has such a part.
fn any_has(live: &[Request], part: Part) -> bool
    ensures { result ≡ asks part live.now }
{
    for r in live {
        if has(r, part) {
            return true;
        }
    }
    false
}

/// For each node whether it has a live request with such a part.
pub(crate) fn asking(
    table: &RequestTable,
    nodes: &IndexSet<u32>,
    part: Part,
) -> Result<Vec<bool>, AllocError>
    ensures { IfOk result (λ marks. marks.items ≡ asked part table.now.requests nodes.now.keys) }
{
    let mut marks = Vec::new(table.allocator());
    for id in nodes.as_slice() {
        marks.push(any_has(table.live(NodeId(*id)), part))?;
    }
    Ok(marks)
}
