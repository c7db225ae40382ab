//! What a run answers, with its exit status and its message.
ghost use Rattle.std.specs.Prelude.{◌≡◌, ◌++◌, IfOk, OnOk, string_bytes};
ghost use Rattle.brep_run.specs.Messages as messages;
ghost use Rattle.brep_run.specs.Messages.{status_of, message_of, spaced_origin};

use brep_tokens::{ReadCode, ReadFault};
use key_results::LimitKind;
use requests::Walk;
use script_requests::{ScriptCode, ScriptFault};
use std::alloc::{AllocError, Global};
use std::marker::Model;

/// What a run answers. `File` tells the first token of the file that isn't accepted. The counts of a fault of the desk
/// are those of the desk: at the last look before the calls that failed, and at the end. In `WriteDesk`, `file` is 1
/// for the first output and 2 for the history, and `taken` is how many bytes of it the desk took, or the last u64 where
/// they are more. `Cycle` tells the origins on the first cycle of a step's graph, the first of them again at its end.
#[derive(Drop)]
pub enum Outcome {
    Done,
    Usage,
    NotBuilt,
    File(ReadFault),
    Script(ScriptFault),
    Cycle(Walk),
    Limit {
        which: LimitKind,
        count: u128,
    },
    ReadDesk {
        before: u64,
        after: u64,
    },
    WriteDesk {
        before: u64,
        after: u64,
        file: u8,
        taken: u64,
    },
    NoMemory,
}

const USAGE: &str =
    "usage: copy IN OUT; rewrite IN SCRIPT OUT HIST; list IN KIND OUT; walk IN KIND N OUT; gen SEED LEVELS OUT";

/// A message of the program: one line, without its line feed.
#[derive(Drop)]
pub struct Message {
    text: String,
}

impl Model for Message {
    ghost use Rattle.std.specs.Prelude.{List, ℕ, string_bytes};

    ghost Value = { List ℕ };

    ghost view = { λ m. string_bytes m.text };
}

impl Message {
    /// The text.
    pub fn text(&self) -> &str
        ensures { result.now ≡ self.now }
    {
        self.text.as_str()
    }
}

/// The word that a message prints for the code of a fault in a file.
fn code_word(code: ReadCode) -> &'static str
    ensures { result.now ≡ messages.code_word code }
{
    match code {
        ReadCode::NoVersion => "no-version",
        ReadCode::VersionNotRead => "version-not-read",
        ReadCode::WordExpected => "word-expected",
        ReadCode::NumberExpected => "number-expected",
        ReadCode::DecimalExpected => "decimal-expected",
        ReadCode::FlagExpected => "flag-expected",
        ReadCode::TokenTooLong => "token-too-long",
        ReadCode::UnknownCode => "unknown-code",
        ReadCode::IndexOutOfRange => "index-out-of-range",
        ReadCode::UseExpected => "use-expected",
        ReadCode::NotAbove => "not-above",
        ReadCode::KindOrder => "kind-order",
        ReadCode::TooDeep => "too-deep",
        ReadCode::TooMany => "too-many",
        ReadCode::NestLimit => "nest-limit",
        ReadCode::WordLimit => "word-limit",
        ReadCode::Truncated => "truncated",
        ReadCode::Tail => "tail",
    }
}

/// The word that a message prints for a limit.
fn limit_word(which: LimitKind) -> &'static str
    ensures { result.now ≡ messages.limit_word which }
{
    match which {
        LimitKind::FileBytes => "file-bytes",
        LimitKind::ScriptBytes => "script-bytes",
        LimitKind::ScriptLines => "script-lines",
        LimitKind::Steps => "steps",
        LimitKind::Rank => "rank",
        LimitKind::Keys => "keys",
        LimitKind::WordPairs => "word-pairs",
        LimitKind::WordPower => "word-power",
        LimitKind::Uses => "uses",
        LimitKind::Depth => "depth",
        LimitKind::Nodes => "nodes",
        LimitKind::Pairs => "pairs",
    }
}

/// The word that a message prints for the code of a refused line.
fn script_word(code: ScriptCode) -> &'static str
    ensures { result.now ≡ messages.script_word code }
{
    match code {
        ScriptCode::Syntax => "syntax",
        ScriptCode::NoSuchShape => "no-such-shape",
        ScriptCode::NoSuchLocation => "no-such-location",
        ScriptCode::KindMismatch => "kind-mismatch",
        ScriptCode::ManyImages => "many-images",
        ScriptCode::EndsDiffer => "ends-differ",
        ScriptCode::NothingToUndo => "nothing-to-undo",
    }
}

fn limit_text(alloc: Global, which: LimitKind, count: u128) -> Result<String, AllocError>
    ensures { IfOk result (λ s. string_bytes s ≡ message_of (Outcome.Limit which count)) }
{
    let word = limit_word(which);
    format!(in alloc; "limit {word} {count}")
}

fn file_text(alloc: Global, fault: ReadFault) -> Result<String, AllocError>
    ensures { IfOk result (λ s. string_bytes s ≡ message_of (Outcome.File fault)) }
{
    let ReadFault {
        code,
        offset,
        value,
        limit,
    } = fault;
    let word = code_word(code);
    format!(in alloc; "file {word} at {offset} value {value} limit {limit}")
}

fn script_fault_text(alloc: Global, fault: ScriptFault) -> Result<String, AllocError>
    ensures { IfOk result (λ s. string_bytes s ≡ message_of (Outcome.Script fault)) }
{
    let ScriptFault {
        line,
        code,
        first,
        second,
    } = fault;
    let word = script_word(code);
    format!(in alloc; "script line {line} {word} {first} {second}")
}

/// Appends a space and an origin.
fn push_origin(alloc: Global, text: &mut String, origin: u32) -> Result<(), AllocError>
    ensures { OnOk result (string_bytes text.new ≡ string_bytes text.old ++ spaced_origin origin) }
{
    let word = format!(in alloc; " {origin}")?;
    text.push_str(word.as_str())
}

fn cycle_text(alloc: Global, walk: &Walk) -> Result<String, AllocError>
    ensures { IfOk result (λ s. string_bytes s ≡ message_of (Outcome.Cycle walk.now)) }
{
    let mut text = String::from_str(alloc, "cycle")?;
    for origin in walk.as_slice() {
        push_origin(alloc, &mut text, *origin)?;
    }
    Ok(text)
}

impl Outcome {
    /// The exit status of the program.
    pub fn status(&self) -> u8
        ensures { result ≡ status_of self.now }
    {
        match self {
            Outcome::Done => 0,
            Outcome::Usage => 2,
            Outcome::File(_) => 3,
            Outcome::Script(_) => 4,
            Outcome::Cycle(_) => 5,
            Outcome::Limit { .. } => 6,
            Outcome::ReadDesk { .. } => 7,
            Outcome::WriteDesk { .. } => 8,
            Outcome::NoMemory => 9,
            Outcome::NotBuilt => 10,
        }
    }

    fn text(&self, alloc: Global) -> Result<String, AllocError>
        ensures { IfOk result (λ s. string_bytes s ≡ message_of self.now) }
    {
        match self {
            Outcome::Done => Ok(String::new(alloc)),
            Outcome::Usage => String::from_str(alloc, USAGE),
            Outcome::File(fault) => file_text(alloc, *fault),
            Outcome::Script(fault) => script_fault_text(alloc, *fault),
            Outcome::Cycle(walk) => cycle_text(alloc, walk),
            Outcome::Limit { which, count } => limit_text(alloc, *which, *count),
            Outcome::ReadDesk { before, after } => {
                format!(in alloc; "read fault {before} {after}")
            }
            Outcome::WriteDesk {
                before,
                after,
                file,
                taken,
            } => format!(in alloc; "write fault {before} {after} file {file} taken {taken}"),
            Outcome::NoMemory => String::from_str(alloc, "no memory"),
            Outcome::NotBuilt => String::from_str(alloc, "not built"),
        }
    }

    /// What the program prints on standard error; empty for `Done`.
    pub fn message(&self, alloc: Global) -> Result<Message, AllocError>
        ensures { IfOk result (λ m. m ≡ message_of self.now) }
    {
        let text = self.text(alloc)?;
        Ok(Message { text })
    }
}
