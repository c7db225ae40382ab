//! Requests on plain trees, and which of them an occurrence meets.
ghost use Rattle.std.specs.Prelude.{◌≡◌};
ghost use Rattle.std.specs.Option.{option_map};
ghost use Rattle.expansion_laws.specs.Requests.{fits as fits_at};
ghost use Rattle.expansion_laws.specs.Plain.{shown_tree};
ghost use Rattle.expansion_laws.specs.SlowRewriting.{shown_request};
ghost use Rattle.expansion_laws.specs.SlowCalls.{met_request};
ghost use Rattle.expansion_laws.specs.SlowParts.{context};

use crate::moving::Here;
use crate::plain::{Tree, TreeUse, same_tree};
use location_words::Word;
use orientation::Turn;

/// A request for the occurrences of a tree, at one place or under one turn alone where these are given.
#[derive(Drop)]
pub struct SlowRequest {
    pub source: Tree,
    pub place: Option<Word>,
    pub turn: Option<Turn>,
    /// What stands in its place, and none where it is removed.
    pub target: Option<TreeUse>,
}

/// Whether a request is one for an occurrence of the tree with this accumulated turn and word.
fn fits(request: &SlowRequest, tree: &Tree, here: &Here) -> bool
    ensures { result ≡ fits_at (shown_tree tree.now) (context here.now) (shown_request request.now) }
{
    let word_fits = match &request.place {
        None => true,
        Some(place) => *place == here.word,
    };
    let turn_fits = match request.turn {
        None => true,
        Some(turn) => turn == here.turn,
    };
    same_tree(&request.source, tree) && (word_fits && turn_fits)
}

/// The last of the requests that fit an occurrence.
pub(crate) fn last_fitting<'a>(
    requests: &'a [SlowRequest],
    tree: &Tree,
    here: &Here,
) -> Option<&'a SlowRequest>
    ensures { option_map (λ r. shown_request r.now) result ≡ met_request requests.now tree.now here.now }
{
    let mut found = None;
    for request in requests {
        if fits(request, tree, here) {
            found = Some(request);
        }
    }
    found
}
