//! Texts of requests.

use crate::parse::{Stop, put_sign, put_word};
use crate::scene::{Scene, put_name, put_use};
use location_words::{WordId, Words};
use requests::{Act, Request};

/// Writes a request: what is asked, of which source, at which place and under which turn.
pub(crate) fn put_request(
    out: &mut String,
    scene: &Scene,
    words: &Words,
    r: &Request,
) -> Result<(), Stop> {
    match r.act {
        Act::Remove => out.push_str("remove ")?,
        Act::Replace(_) => out.push_str("replace ")?,
    }
    put_source(out, scene, words, r)?;
    if let Act::Replace(one) = r.act {
        out.push_str(" by ")?;
        put_use(out, scene, words, one)?;
    }
    Ok(())
}

/// Writes the source of a request.
fn put_source(out: &mut String, scene: &Scene, words: &Words, r: &Request) -> Result<(), Stop> {
    if let Some(turn) = r.turn {
        put_sign(out, turn)?;
    }
    put_name(out, scene, r.source)?;
    match r.place {
        None => Ok(()),
        Some(WordId(0)) => {
            out.push_str("@1")?;
            Ok(())
        }
        Some(place) => put_word(out, words, place),
    }
}

/// Writes requests, or `none`.
pub(crate) fn put_requests(
    out: &mut String,
    scene: &Scene,
    words: &Words,
    asked: &[Request],
) -> Result<(), Stop> {
    if asked.is_empty() {
        out.push_str("none")?;
    }
    let mut mark = "";
    for r in asked {
        out.push_str(mark)?;
        put_request(out, scene, words, r)?;
        mark = ", ";
    }
    Ok(())
}
