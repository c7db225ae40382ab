//! One request.
ghost use Rattle.std.specs.Prelude.{◌≡◌, ◌++◌, OnOk};
ghost use Rattle.sewing.specs.Asked.{asked_of, is_first as is_first_itself};

use location_words::WordId;
use orientation::Turn;
use requests::{Act, Request, Requests};
use shape_pool::{NodeId, UseOf};
use std::alloc::AllocError;

/// Whether a node under a turn is the first one itself.
fn is_first(first: NodeId, turn: Turn, source: NodeId) -> bool
    ensures { result ≡ is_first_itself first turn source }
{
    match turn {
        Turn::Forward => source.0 == first.0,
        _ => false,
    }
}

/// Asks that a node be the first one under a turn, where it isn't so already.
pub(crate) fn ask(
    asked: &mut Requests,
    first: NodeId,
    turn: Turn,
    source: NodeId,
) -> Result<(), AllocError>
    ensures { OnOk result (asked.new ≡ asked.old ++ asked_of first turn source) }
{
    if is_first(first, turn, source) {
        return Ok(());
    }
    let place = WordId(0);
    let by = UseOf {
        turn,
        place,
        id: first,
    };
    asked.push(Request {
        source,
        place: None,
        turn: None,
        act: Act::Replace(by),
    })
}
