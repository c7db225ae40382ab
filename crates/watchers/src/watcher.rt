//! What is told events.
ghost use Rattle.std.specs.Prelude.{◌≡◌, ◌≢◌, ◌∷◌, false};
ghost use Rattle.watchers.specs.Watching.{Watching, GoesOn, heard_after, counted_after, IsWish, kept_at};
ghost use Rattle.watchers.specs.declared.event.Answer.TheVariants.{More, NoMemory};

use crate::event::{Answer, Event};

/// What is told the events of a run, one after another, until it has had enough.
pub trait Watcher: Drop {
    /// The events that it keeps, if it keeps any, how many it has counted, whether it is sure to find memory, and what
    /// it wishes at the last of each list of events told from now on.
    ghost shows: { Self → Watching };

    /// Tells it an event. It answers as it wishes, or, unless it is sure, that it finds no memory: then it hasn't heard
    /// the event.
    fn told(&mut self, e: Event) -> Answer
        ensures wished { result ≢ NoMemory → IsWish (shows self.old) e result }
        ensures short { result ≡ NoMemory → (shows self.old).sure ≡ false }
        ensures sure { (shows self.new).sure ≡ (shows self.old).sure }
        ensures goes_on { result ≡ More → GoesOn (shows self.old) e (shows self.new) }
        ensures heard { (shows self.new).heard ≡ heard_after result e (shows self.old).heard }
        ensures counted { (shows self.new).counted ≡ counted_after result (shows self.old).counted };

    /// How many events it has heard, up to the last u64.
    fn count(&self) -> u64
        ensures { result ≡ (shows self.now).counted };

    /// The event that it keeps at a place, counted from 0. None exactly where it keeps none there.
    fn kept(&self, i: u64) -> Option<Event>
        ensures { result ≡ kept_at (shows self.now).heard i };
}
