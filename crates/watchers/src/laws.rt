//! Laws of watchers. The function does nothing: its contract is the law.
ghost use Rattle.watchers.specs.Hearing.{WatchersHear};

/// A watcher hears the first of the events that are told, as many as it wishes for and finds memory for; its row counts
/// them and tells why it hears no more; and it is kept exactly where it listens.
pub fn watchers_hear()
    ensures { WatchersHear }
{}
