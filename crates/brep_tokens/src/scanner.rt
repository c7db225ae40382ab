//! The version and the tokens of a text, one after another.
ghost use Rattle.brep_tokens.specs.Scan.{Steps, coming};
ghost use Rattle.std.specs.Prelude.{◌≡◌, ◌++◌, OnErr, OnOk, [], false, true};

use crate::fault::{ReadCode, ReadFault, fault};
use crate::text::{Token, TokenText};
use crate::text_words::first_word;
use crate::version::head;
use std::alloc::{AllocError, Global};
use std::marker::Model;

/// What a scanner gives next. `NeedMore` and `End` have the number of bytes that were fed.
#[derive(Clone, Copy)]
pub enum Next {
    /// The version line was read: version 1 or 2.
    Version(u8),
    Token(Token),
    /// Nothing can be given before more is fed or the end is told.
    NeedMore(u64),
    End(u64),
}

/// Gives the version and then the tokens of the bytes that it is fed.
#[derive(Drop)]
pub struct Scanner {
    fed: Vec<u8>,
    at: usize,
    headed: bool,
    ended: bool,
}

impl Model for Scanner {
    ghost use Rattle.brep_tokens.specs.State.{Scan};
    ghost use Rattle.std.specs.Prelude.{◌≤◌, length};

    ghost Value = { Scan };

    ghost view = { λ s. record { fed = s.fed.items; at = s.at; headed = s.headed; ended = s.ended } };

    ghost invariant = { λ s. s.at ≤ length s.fed.items };
}

impl Scanner {
    /// A scanner that was fed nothing.
    pub fn new(alloc: Global) -> Scanner
        ensures { result ≡ record { fed = []; at = 0; headed = false; ended = false } }
    {
        Scanner {
            fed: Vec::new(alloc),
            at: 0,
            headed: false,
            ended: false,
        }
    }

    /// Feeds the bytes of the text.
    pub fn feed(&mut self, piece: &[u8]) -> Result<(), AllocError>
        requires open { self.old.ended ≡ false }
        requires first { self.old.fed ≡ [] }
        ensures ok { OnOk result (self.new ≡ record self.old { fed = self.old.fed ++ piece.now }) }
        ensures err { OnErr result (self.new ≡ self.old) }
    {
        self.fed.extend_from_slice(piece)
    }

    /// Tells that the text ended.
    pub fn end(&mut self)
        ensures { self.new ≡ record self.old { ended = true } }
    {
        self.ended = true;
    }

    /// The version, then each token, then the end. After a fault the same fault comes again.
    pub fn next(&mut self) -> Result<Next, ReadFault>
        requires { self.old.ended ≡ true }
        ensures answer { result ≡ coming self.old }
        ensures ok { OnOk result (Steps self.old self.new) }
        ensures err { OnErr result (self.new ≡ self.old) }
    {
        if !self.headed {
            let (version, at) = head(&self.fed)?;
            self.at = at;
            self.headed = true;
            return Ok(Next::Version(version));
        }
        match first_word(&self.fed, self.at) {
            None => Ok(Next::End(self.fed.len() as u64)),
            Some((start, end)) => {
                if end - start > 128 {
                    return Err(fault(ReadCode::TokenTooLong, start, 129, 128));
                }
                let text = TokenText::of(&self.fed[start..end]);
                self.at = end;
                Ok(Next::Token(Token {
                    offset: start as u64,
                    text,
                }))
            }
        }
    }
}
