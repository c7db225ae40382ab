//! The limits of a run, and why a step isn't carried out.
ghost use Rattle.std.specs.Prelude.{◌≡◌};
ghost use Rattle.key_results.specs.Faults.{of_node, of_word};

use location_words::WordFault;
use shape_pool::PoolFault;
use std::alloc::AllocError;

/// A quantity that has a limit.
#[derive(Clone, Copy, Debug, PartialEq, Eq, Hash)]
pub enum LimitKind {
    /// Bytes of the input.
    FileBytes,
    /// Bytes of the script.
    ScriptBytes,
    /// Lines of the script.
    ScriptLines,
    /// Steps carried out, undone ones too.
    Steps,
    /// The greatest number of edges of a walk in the graph of a step.
    Rank,
    /// Keys of a step that hold a word.
    Keys,
    /// Pairs of a word.
    WordPairs,
    /// The size of a power in a word.
    WordPower,
    /// Uses that the keys of a step bring.
    Uses,
    /// The depth of a tree.
    Depth,
    /// Nodes held.
    Nodes,
    /// Pairs of a map of ancestors.
    Pairs,
}

/// Why a step isn't carried out.
#[derive(Clone, Copy, Debug, PartialEq, Eq)]
pub enum ApplyFault {
    /// A limit is passed: which one, and the count that passes it.
    Limit { which: LimitKind, count: u128 },
    /// Want of memory.
    NoMemory,
}

impl From<AllocError> for ApplyFault {
    ghost use Rattle.key_results.specs.declared.fault.ApplyFault.{ApplyFault};

    ghost from_gives = { λ _ fault. fault ≡ ApplyFault.NoMemory };

    fn from(_: AllocError) -> ApplyFault {
        ApplyFault::NoMemory
    }
}

impl From<WordFault> for ApplyFault {
    ghost from_gives = { λ old fault. fault ≡ of_word old };

    fn from(fault: WordFault) -> ApplyFault {
        match fault {
            WordFault::Pairs(count) => limit(LimitKind::WordPairs, count),
            WordFault::Power(count) => limit(LimitKind::WordPower, count),
            WordFault::NoMemory => ApplyFault::NoMemory,
        }
    }
}

impl From<PoolFault> for ApplyFault {
    ghost from_gives = { λ old fault. fault ≡ of_node old };

    fn from(fault: PoolFault) -> ApplyFault {
        match fault {
            PoolFault::TooMany(count) => limit(LimitKind::Nodes, u128::from(count)),
            PoolFault::TooDeep(depth) => limit(LimitKind::Depth, u128::from(depth)),
            PoolFault::NoMemory => ApplyFault::NoMemory,
        }
    }
}

/// A limit that is passed.
pub fn limit(which: LimitKind, count: u128) -> ApplyFault
    ensures { result ≡ ApplyFault.Limit which count }
{
    ApplyFault::Limit { which, count }
}
