//! Events as rows spell them: `1 modified 6 4`.

use watchers::{Event, EventAct};

/// The act of a name.
fn act_of(name: &str) -> Option<EventAct> {
    match name.as_bytes() {
        b"modified" => Some(EventAct::Modified),
        b"generated" => Some(EventAct::Generated),
        b"removed" => Some(EventAct::Removed),
        b"undone" => Some(EventAct::Undone),
        _ => None,
    }
}

/// The name of an act.
pub(crate) fn act_name(act: EventAct) -> &'static str {
    match act {
        EventAct::Modified => "modified",
        EventAct::Generated => "generated",
        EventAct::Removed => "removed",
        EventAct::Undone => "undone",
    }
}

/// The event that a text spells.
pub(crate) fn event_of(text: &str) -> Option<Event> {
    let mut words = text.split_whitespace();
    Some(Event {
        step: words.next()?.parse::<u32>().ok()?,
        act: act_of(words.next()?)?,
        old: words.next()?.parse::<u32>().ok()?,
        new: words.next()?.parse::<u32>().ok()?,
    })
}
