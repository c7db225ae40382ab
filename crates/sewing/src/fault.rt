//! Why nodes aren't merged or sewn.

/// Why a list isn't merged or sewn. Members are counted from 0, without the first one of the list.
#[derive(Clone, Copy, Debug, PartialEq, Eq)]
pub enum SewFault {
    /// A member that is merged hasn't the kind of the first one, or a member that is sewn is no edge.
    KindMismatch { member: usize },
    /// What others are to be sewn to is no edge.
    NotEdge,
    /// A member under its turn hasn't the ends of the first one.
    EndsDiffer { member: usize },
    /// Want of memory.
    NoMemory,
}
