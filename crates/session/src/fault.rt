//! Why a command of a script is refused.
ghost use Rattle.std.specs.Prelude.{◌≡◌};
ghost use Rattle.script_requests.specs.Refusals.{told};
ghost use Rattle.session.specs.declared.fault.SessionFault.{SessionFault};

use requests::{CheckFault, Walk};
use reshape::{ApplyFault, LimitKind};
use script_requests::{AskFault, ScriptCode, ScriptFault};
use std::alloc::AllocError;
use std::fmt::{Debug, Display, Formatter, Result as FmtResult, Write};
use thiserror::Error;

/// Why a command is refused.
#[derive(Drop, Error)]
pub enum SessionFault {
    /// The command of a line can't be carried out.
    #[error("a line of the script is refused")]
    Script(ScriptFault),
    /// The graph of the step has a cycle. This is the first one by its origins, the first of them again at its end.
    #[error("the graph of the step has a cycle")]
    Cycle(Walk),
    /// A limit of the step is passed: which one, and the count that passes it.
    #[error("a limit of the step is passed")]
    Limit { which: LimitKind, count: u128 },
    /// Want of memory.
    #[error("no memory")]
    NoMemory,
}

/// The same text as for people.
impl Debug for SessionFault {
    fn fmt<W: Write>(&self, f: &mut Formatter<W>) -> FmtResult {
        Display::fmt(self, f)
    }
}

impl From<AllocError> for SessionFault {
    ghost use Rattle.session.specs.declared.fault.SessionFault.{SessionFault};

    ghost from_gives = { λ _ fault. fault ≡ SessionFault.NoMemory };

    fn from(_: AllocError) -> SessionFault {
        SessionFault::NoMemory
    }
}

impl From<AskFault> for SessionFault {
    ghost use Rattle.session.specs.Faults.{of_ask};

    ghost from_gives = { λ old fault. fault ≡ of_ask old };

    fn from(fault: AskFault) -> SessionFault {
        match fault {
            AskFault::Script(fault) => SessionFault::Script(fault),
            AskFault::NoMemory => SessionFault::NoMemory,
        }
    }
}

impl From<CheckFault> for SessionFault {
    ghost use Rattle.session.specs.Faults.{of_check};

    ghost from_gives = { λ old fault. fault ≡ of_check old };

    fn from(fault: CheckFault) -> SessionFault {
        match fault {
            CheckFault::Cycle(walk) => SessionFault::Cycle(walk),
            CheckFault::Rank(rank) => SessionFault::Limit {
                which: LimitKind::Rank,
                count: u128::from(rank),
            },
            CheckFault::NoMemory => SessionFault::NoMemory,
        }
    }
}

impl From<ApplyFault> for SessionFault {
    ghost use Rattle.session.specs.Faults.{of_apply};

    ghost from_gives = { λ old fault. fault ≡ of_apply old };

    fn from(fault: ApplyFault) -> SessionFault {
        match fault {
            ApplyFault::Limit { which, count } => SessionFault::Limit { which, count },
            ApplyFault::NoMemory => SessionFault::NoMemory,
        }
    }
}

/// The fault of a line.
pub(crate) fn refused(line: u64, code: ScriptCode, first: u64, second: u64) -> SessionFault
    ensures { result ≡ SessionFault.Script (told line code first second) }
{
    SessionFault::Script(ScriptFault {
        line,
        code,
        first,
        second,
    })
}
