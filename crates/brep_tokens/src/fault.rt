//! Why a text can't be read.
ghost use Rattle.std.specs.Prelude.{◌≡◌};

use std::alloc::AllocError;

/// What is wrong with a token, or with the end of the input.
#[derive(Clone, Copy, Debug, PartialEq, Eq)]
pub enum ReadCode {
    /// No line begins as a version line.
    NoVersion,
    /// The first line that begins as a version line is none. The value is its number, from 1.
    VersionNotRead,
    /// A section word, the name of a kind, the word `p` or a continuity word is due.
    WordExpected,
    NumberExpected,
    DecimalExpected,
    FlagExpected,
    /// A token has more than 128 bytes.
    TokenTooLong,
    /// A number that is no code where it stands.
    UnknownCode,
    /// The number of a table entry, a node or a record outside its range.
    IndexOutOfRange,
    /// A use sign with a number is due, or in a record also `*`.
    UseExpected,
    /// A use names a record that doesn't stand after its own.
    NotAbove,
    /// The kind of a child isn't lower than its parent's.
    KindOrder,
    /// A child has as many levels as a tree may have.
    TooDeep,
    /// A count or a product of counts passes its limit.
    TooMany,
    /// A curve or surface is nested too deep.
    NestLimit,
    /// A location's word passes a limit.
    WordLimit,
    /// The input ends where a token is due.
    Truncated,
    /// Something follows the root use.
    Tail,
}

/// A fault: the offset of its token, and the value and the limit that its code has, else 0.
#[derive(Clone, Copy, Debug, PartialEq, Eq)]
pub struct ReadFault {
    pub code: ReadCode,
    pub offset: u64,
    pub value: u64,
    pub limit: u64,
}

pub(crate) fn fault(code: ReadCode, offset: usize, value: u64, limit: u64) -> ReadFault
    ensures { result ≡ record { code = code; offset = offset; value = value; limit = limit } }
{
    ReadFault {
        code,
        offset: offset as u64,
        value,
        limit,
    }
}

/// Why a reader stops.
#[derive(Clone, Copy, Debug, PartialEq, Eq)]
pub enum ReadStop {
    Fault(ReadFault),
    NoMemory,
}

impl From<AllocError> for ReadStop {
    ghost use Rattle.brep_tokens.specs.declared.fault.ReadStop.TheVariants.{NoMemory};

    ghost from_gives = { λ _ e. e ≡ NoMemory };

    fn from(_e: AllocError) -> ReadStop {
        ReadStop::NoMemory
    }
}

impl From<ReadFault> for ReadStop {
    ghost use Rattle.brep_tokens.specs.declared.fault.ReadStop.TheVariants.{Fault};

    ghost from_gives = { λ f e. e ≡ Fault f };

    fn from(f: ReadFault) -> ReadStop {
        ReadStop::Fault(f)
    }
}

/// What a reader answers to a token that it accepts: it waits for more, or has read the whole entry.
#[derive(Clone, Copy, Debug, PartialEq, Eq)]
pub enum Progress {
    More,
    Whole,
}
