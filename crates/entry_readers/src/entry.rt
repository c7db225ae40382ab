//! Readers of entries of any kind.
ghost use Rattle.std.specs.Prelude.{◌≡◌, List, [], Ok, Err};
ghost use Rattle.brep_tokens.specs.declared.text.Token.{Token};
ghost use Rattle.entry_readers.specs.Reading.{Read, more};
ghost use Rattle.entry_readers.specs.Takes.{Takes};

use brep_tokens::{Progress, ReadStop, Token};
use std::alloc::Global;

/// Takes the tokens of one entry.
pub trait EntryReader: Drop {
    /// What is read.
    type Entry: Drop;

    // reading an entry
    ghost read: { List Token → Read Self.Entry };

    // what is left to read
    ghost left: { Self → List Token → Read Self.Entry };

    // a token is due
    ghost waits: { Self → Type 0 };

    // the entry is whole
    ghost whole: { Self → Type 0 };

    /// No token was taken yet.
    fn begin(alloc: Global) -> Self
        ensures left { (ts : List Token) → left result ts ≡ read ts }
        ensures waits { waits result }
        ensures open { left result [] ≡ Err more };

    /// Takes a token.
    fn take_token(&mut self, t: &Token) -> Result<Progress, ReadStop>
        requires { waits self.old }
        ensures { Takes (left self.old) t.now (left self.new) (waits self.new) (whole self.new) result };

    /// The entry.
    fn finish(self) -> Self::Entry
        requires { whole self }
        ensures { (rest : List Token) → left self rest ≡ Ok (result, rest) };
}
