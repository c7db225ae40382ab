//! `list` and `walk`: reads a file, and writes what is listed of it.
ghost use Rattle.std.specs.Prelude.{◌≤◌, IsTrue};
ghost use Rattle.brep_desk.specs.Strays.{NoStrayOnHeld};
ghost use Rattle.brep_desk.specs.Transfers.{NothingWritten};
ghost use Rattle.brep_desk.specs.WritingCalls.{KeepsWritingCalls, RoseWritingCalls};
ghost use Rattle.brep_run.specs.Copy.{Counts, HoldsFault};
ghost use Rattle.brep_run.specs.Listings.{IsListed, IsListingLimit, IsListingStopped};
ghost use Rattle.brep_run.specs.Outcomes.{OnDone, OnUsage, OnNotBuilt, OnWriting, IfFile, IfLimit};
ghost use Rattle.brep_run.specs.Outcomes.{IfCycle, IfScript, IfStopped, IfDeskFault, UnlessWriting};

use crate::input::read_input;
use crate::outcome::Outcome;
use crate::output::write_out;
use brep_desk::Desk;
use key_results::LimitKind;
use shape_listing::{Listing, ListingFault, listing_text};
use std::alloc::Global;

/// Reads the one name and writes what is listed of its file to the other. The text is made whole before the writing
/// begins.
pub(crate) fn list<D: Desk>(
    alloc: Global,
    desk: &mut D,
    source: &str,
    listing: Listing,
    target: &str,
) -> Outcome
    ensures done { OnDone result (IsListed D.tells (D.shows desk.old) (D.shows desk.new)
        source.now listing target.now) }
    ensures stopped { IfStopped result (IsListingStopped D.tells (D.shows desk.old) (D.shows desk.new)
        source.now listing target.now) }
    ensures counts { IfDeskFault result (Counts (D.faults desk.old) (D.faults desk.new)) }
    ensures limit { IfLimit result (IsListingLimit D.tells (D.shows desk.old) source.now listing) }
    ensures file { IfFile result (λ fault. IsTrue D.tells.held → HoldsFault (D.shows desk.old) source.now fault) }
    ensures not_built { OnNotBuilt result ⊥ }
    ensures script { IfScript result (λ fault. ⊥) }
    ensures cycle { IfCycle result (λ walk. ⊥) }
    ensures usage { OnUsage result ⊥ }
    ensures quiet { UnlessWriting result (NothingWritten D.tells (D.shows desk.old) (D.shows desk.new)) }
    ensures calls_kept { UnlessWriting result (KeepsWritingCalls D.tells (D.shows desk.old) (D.shows desk.new)) }
    ensures calls_rose { OnWriting result (RoseWritingCalls D.tells (D.shows desk.old) (D.shows desk.new)) }
    ensures strays { NoStrayOnHeld D.tells (D.shows desk.old) (D.shows desk.new) source.now }
{
    let file = match read_input(alloc, desk, source) {
        Ok(file) => file,
        Err(stop) => return stop,
    };
    match listing_text(alloc, &file, listing) {
        Ok(text) => write_out(desk, target, &text),
        Err(ListingFault::Keys(count)) => Outcome::Limit {
            which: LimitKind::Keys,
            count: count as u128,
        },
        Err(ListingFault::WordPairs(count)) => Outcome::Limit {
            which: LimitKind::WordPairs,
            count,
        },
        Err(ListingFault::WordPower(count)) => Outcome::Limit {
            which: LimitKind::WordPower,
            count,
        },
        Err(ListingFault::Pairs(count)) => Outcome::Limit {
            which: LimitKind::Pairs,
            count: count as u128,
        },
        Err(ListingFault::NoMemory) => Outcome::NoMemory,
    }
}
