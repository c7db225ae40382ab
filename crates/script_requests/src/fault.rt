//! Why a command of a script is refused.
ghost use Rattle.std.specs.Prelude.{◌≡◌};
ghost use Rattle.script_requests.specs.Refusals.{told};
ghost use Rattle.script_requests.specs.declared.fault.AskFault.{AskFault};

use std::alloc::AllocError;

/// Why a line of a script is refused, and what `first` and `second` are then.
#[derive(Clone, Copy, Debug, PartialEq, Eq)]
pub enum ScriptCode {
    /// It spells no command: 0 and 0.
    Syntax,
    /// It names no record of the file: the number, and how many records there are.
    NoSuchShape,
    /// It names no location of the file: the number, and how many locations there are.
    NoSuchLocation,
    /// A target doesn't fit its source, or a name of a list the first one: both names.
    KindMismatch,
    /// What should be one shape has become several: the name, and how many they are.
    ManyImages,
    /// An edge has other ends than the first one of a list: the first name and the further one.
    EndsDiffer,
    /// There is nothing to take back: 0 and 0.
    NothingToUndo,
}

/// A line of a script that is refused, by its number from 1 on.
#[derive(Clone, Copy, Debug, PartialEq, Eq)]
pub struct ScriptFault {
    /// The number of the line.
    pub line: u64,
    /// Why it is refused.
    pub code: ScriptCode,
    /// The first number that the code tells, and the second.
    pub first: u64,
    pub second: u64,
}

/// Why a command asks nothing.
#[derive(Clone, Copy, Debug, PartialEq, Eq)]
pub enum AskFault {
    /// The command of a line can't be carried out.
    Script(ScriptFault),
    /// Want of memory.
    NoMemory,
}

impl From<AllocError> for AskFault {
    ghost use Rattle.script_requests.specs.declared.fault.AskFault.{AskFault};

    ghost from_gives = { λ _ fault. fault ≡ AskFault.NoMemory };

    fn from(_: AllocError) -> AskFault {
        AskFault::NoMemory
    }
}

/// The fault of a line.
pub(crate) fn refused(line: u64, code: ScriptCode, first: u64, second: u64) -> AskFault
    ensures { result ≡ AskFault.Script (told line code first second) }
{
    AskFault::Script(ScriptFault {
        line,
        code,
        first,
        second,
    })
}
