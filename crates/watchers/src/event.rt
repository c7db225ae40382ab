//! Events of a run.

/// What became of a shape in a step, or that a step was undone.
#[derive(Clone, Copy, Debug, PartialEq, Eq)]
pub enum EventAct {
    Modified,
    Generated,
    Removed,
    Undone,
}

/// An event of a step. Steps are numbered from 1 as they are carried out, undone ones counted.
#[derive(Clone, Copy, Debug, PartialEq, Eq)]
pub struct Event {
    pub step: u32,
    pub act: EventAct,
    /// The origin of the shape that it is about, 0 where a step is undone.
    pub old: u32,
    /// The origin of what came of the shape, 0 where it is removed or a step is undone.
    pub new: u32,
}

/// What a watcher answers to an event.
#[derive(Clone, Copy, Debug, PartialEq, Eq)]
pub enum Answer {
    /// It is to be told the next one.
    More,
    /// It has heard this one, and is to be told no more.
    Enough,
    /// It found no memory for this one, and hasn't heard it.
    NoMemory,
}
