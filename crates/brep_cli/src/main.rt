//! Rewrites the shared shape records of BREP files: the program's words, its desk of files, its message and its status.
#![tactic(auto)]

mod disk;

ghost use Rattle.std.specs.Prelude.{◌≡◌, ◌<◌};

use brep_desk::{CommandWords, Desk, NameText, Steps};
use brep_run::{Outcome, run};
use disk::DiskDesk;
use std::alloc::Global;
use std::io::ErrorKind;
use std::marker::Brand;
use std::process::ExitCode;
use std::sync::ledger::{Blank, Ledger};
use std::{env, io};

/// The words after the program's name. One that isn't UTF-8 is an error.
fn command_words(rt: &HostRuntime) -> io::Result<CommandWords> {
    let mut words = CommandWords::new(rt.alloc());
    for word in env::args(rt)?.skip(1) {
        words.push(NameText::of(word))?;
    }
    Ok(words)
}

/// A run that counts its steps in a ledger of its own.
fn run_counted<D: Desk, L: Ledger>(
    alloc: Global,
    words: &CommandWords,
    desk: &mut D,
    blank: Blank,
) -> Outcome
    requires name { blank.name ≡ L.name }
    requires parts { blank.parts ≡ L.parts }
    requires some { 0 < blank.parts }
{
    let mut steps = Steps::<L>::open(blank);
    run(alloc, words, desk, &mut steps)
}

/// Prints the message of an outcome on standard error, where it has one; nothing, where there is no memory for it.
fn report(rt: &HostRuntime, outcome: &Outcome) {
    if let Ok(message) = outcome.message(rt.alloc()) {
        let text = message.text();
        if !text.is_empty() {
            let _ = eprintln!(rt; "{text}");
        }
    }
}

fn main(rt: HostRuntime) -> ExitCode {
    let outcome = match command_words(&rt) {
        Ok(words) => {
            let mut desk = DiskDesk::new(&rt);
            run_counted::<DiskDesk, Brand>(rt.alloc(), &words, &mut desk, Blank::new(1))
        }
        Err(e) => {
            if e.kind() == ErrorKind::OutOfMemory {
                return ExitCode::from(Outcome::NoMemory.status());
            }
            Outcome::Usage
        }
    };
    report(&rt, &outcome);
    ExitCode::from(outcome.status())
}
