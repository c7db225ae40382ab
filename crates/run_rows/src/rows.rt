//! The rows of the input, line by line, and what is said of them.
use crate::answers::{Known, Layout, run_text, status_text};
use crate::reads::{nothing_text, pieces_text, whole_text};
use crate::sweeps::{cuts_text, fail_each_text, prefixes_text};
use brep_desk::MemoryDesk;
use brep_run::Outcome;
use row_runs::{desk_of, ran, words_of};
use row_texts::{Given, Order, Ran, Sweep, number_and_rest, numbers_of, order_of};
use std::alloc::{AllocError, Global};

/// How many bytes a call moves where a row says nothing of it.
const PIECE: usize = 4096;

/// The row that is read, and all that is said.
#[derive(Drop)]
pub(crate) struct Rows {
    alloc: Global,
    given: Given,
    failing: Vec<u64>,
    piece: usize,
    desk: Option<MemoryDesk>,
    said: String,
}

impl Rows {
    pub(crate) fn new(alloc: Global) -> Rows {
        Rows {
            alloc,
            given: Given::new(alloc),
            failing: Vec::new(alloc),
            piece: PIECE,
            desk: None,
            said: String::new(alloc),
        }
    }

    /// All that is said: each line of the input, and behind the orders their answers.
    pub(crate) fn said(&self) -> &str {
        self.said.as_str()
    }

    fn say(&mut self, line: &str) -> Result<(), AllocError> {
        self.said.push_str(line)?;
        self.said.push_str("\n")
    }

    /// Says that a line isn't understood, where it isn't.
    fn say_unless(&mut self, understood: bool) -> Result<(), AllocError> {
        if understood { Ok(()) } else { self.say("?") }
    }

    /// The next line of the input.
    pub(crate) fn take(&mut self, line: &str) -> Result<(), AllocError> {
        self.say(line)?;
        match order_of(line) {
            Some((order, rest)) => self.follow(order, rest),
            None => self.plain(line),
        }
    }

    /// A line that is no order: of the text that is given, or else a note.
    fn plain(&mut self, line: &str) -> Result<(), AllocError> {
        let added = self.given.add_line(line)?;
        self.say_unless(added || line.is_empty() || line.starts_with('#'))
    }

    fn follow(&mut self, order: Order, rest: &str) -> Result<(), AllocError> {
        match order {
            Order::Row => {
                self.begin_row();
                Ok(())
            }
            Order::End => {
                self.given.end();
                Ok(())
            }
            Order::Piece => self.set_piece(rest),
            Order::Fail => {
                self.failing = numbers_of(self.alloc, rest)?;
                Ok(())
            }
            Order::Give(give) => {
                let understood = self.given.give(give, rest)?;
                self.say_unless(understood)
            }
            Order::Ran(way) => self.run_way(way, rest),
            Order::Sweep(sweep) => self.sweep(sweep, rest),
        }
    }

    fn begin_row(&mut self) {
        self.given.begin_row();
        self.failing = Vec::new(self.alloc);
        self.piece = PIECE;
        self.desk = None;
    }

    fn set_piece(&mut self, rest: &str) -> Result<(), AllocError> {
        match number_and_rest(rest) {
            Some((number, _)) => {
                self.piece = number as usize;
                Ok(())
            }
            None => self.say("?"),
        }
    }

    fn run_way(&mut self, way: Ran, rest: &str) -> Result<(), AllocError> {
        match way {
            Ran::Run => self.run_new(rest),
            Ran::Then => self.run_then(rest),
            Ran::Copy => {
                self.given.begin_file("in")?;
                self.given.add_text(rest)?;
                self.run_new("copy in out")
            }
            Ran::After => self.run_after(rest),
            Ran::Script => {
                self.given.begin_file("script")?;
                self.given.add_text(rest)?;
                self.run_new("rewrite in script out history")
            }
        }
    }

    /// A copy of a kept text and another behind it.
    fn run_after(&mut self, rest: &str) -> Result<(), AllocError> {
        let (name, text) = rest.split_once(' ').unwrap_or((rest, ""));
        self.given.begin_file("in")?;
        self.given.add_kept(name)?;
        self.given.add_text(text)?;
        self.run_new("copy in out")
    }

    /// Runs the words over a new desk.
    fn run_new(&mut self, line: &str) -> Result<(), AllocError> {
        let desk = desk_of(self.alloc, self.given.files(), &self.failing, self.piece)?;
        self.run_over(desk, line)
    }

    /// Runs the words over the desk that the last run left.
    fn run_then(&mut self, line: &str) -> Result<(), AllocError> {
        match self.desk.take() {
            Some(desk) => self.run_over(desk, line),
            None => self.say("?"),
        }
    }

    fn run_over(&mut self, mut desk: MemoryDesk, line: &str) -> Result<(), AllocError> {
        self.given.end();
        let words = words_of(self.alloc, line)?;
        let outcome = ran(self.alloc, &words, &mut desk);
        let known = Known {
            given: self.given.files(),
            kept: self.given.kept(),
        };
        let text = run_text(self.alloc, known, Layout::Lines, &outcome, &desk, &words)?;
        self.desk = Some(desk);
        self.say(text.as_str())
    }

    /// The bytes of a file of the row.
    fn given_bytes(&self, name: &str) -> Result<Vec<u8>, AllocError> {
        match self.given.files().of(name) {
            Some(bytes) => bytes.to_vec(self.alloc),
            None => Ok(Vec::new(self.alloc)),
        }
    }

    /// The answers of a sweep, each with the end of its line.
    fn sweep_text(&self, sweep: Sweep, rest: &str) -> Result<String, AllocError> {
        let known = Known {
            given: self.given.files(),
            kept: self.given.kept(),
        };
        match sweep {
            Sweep::FailEach => fail_each_text(self.alloc, known, self.piece, rest),
            Sweep::Prefixes => {
                let bytes = self.given_bytes(rest)?;
                prefixes_text(self.alloc, known, self.piece, &bytes)
            }
            Sweep::Cuts => cuts_text(self.alloc, &self.given_bytes(rest)?),
            Sweep::Read => self.read_text(rest),
            Sweep::NoMemory => status_text(self.alloc, &Outcome::NoMemory),
        }
    }

    /// What is read of no text, of one, or of two as the pieces of one.
    fn read_text(&self, rest: &str) -> Result<String, AllocError> {
        if rest.is_empty() {
            return nothing_text(self.alloc);
        }
        match rest.split_once(' ') {
            Some((first, second)) => {
                let first = self.given_bytes(first)?;
                let second = self.given_bytes(second)?;
                pieces_text(self.alloc, &first, &second)
            }
            None => whole_text(self.alloc, &self.given_bytes(rest)?),
        }
    }

    fn sweep(&mut self, sweep: Sweep, rest: &str) -> Result<(), AllocError> {
        self.given.end();
        let text = self.sweep_text(sweep, rest)?;
        self.say(text.as_str().trim_end())
    }
}
