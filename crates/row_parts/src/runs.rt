//! Runs: `{129 0:7}` stands for 129 times `7`, and `{3 5:# x }` for `5 x 6 x 7 x `.

use std::alloc::{AllocError, Global};

/// The number that a word spells, and 0 where it spells none.
pub(crate) fn worth(word: &str) -> u64 {
    word.parse::<u64>().unwrap_or(0)
}

/// Appends a text, with the next number for each `#`, and gives the number that follows.
fn add_copy(all: &mut String, alloc: Global, text: &str, first: u64) -> Result<u64, AllocError> {
    let mut next = first;
    let mut begun = false;
    for piece in text.split('#') {
        if begun {
            all.push_str(format!(in alloc; "{next}")?.as_str())?;
            next = next.saturating_add(1);
        }
        begun = true;
        all.push_str(piece)?;
    }
    Ok(next)
}

/// Appends what stands in braces, at most 10,000 times.
fn add_run(all: &mut String, alloc: Global, run: &str) -> Result<(), AllocError> {
    if let Some((numbers, text)) = run.split_once(':')
        && let Some((count, first)) = numbers.split_once(' ')
    {
        let mut next = worth(first);
        for _ in 0..worth(count).min(10_000) {
            next = add_copy(all, alloc, text, next)?;
        }
    }
    Ok(())
}

/// A row's text with its runs written out.
pub(crate) fn written_out(alloc: Global, text: &str) -> Result<String, AllocError> {
    let mut all = String::new(alloc);
    for piece in text.split('{') {
        match piece.split_once('}') {
            Some((run, rest)) => {
                add_run(&mut all, alloc, run)?;
                all.push_str(rest)?;
            }
            None => all.push_str(piece)?,
        }
    }
    Ok(all)
}
