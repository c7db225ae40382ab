//! Makes files by a seed and a number of levels, and tells of each how long it is, a check sum of its bytes, and its
//! script.
#![tactic(auto)]

use brep_gen::{Generated, generate};
use std::alloc::{AllocError, Global};
use std::io;

/// A check sum: FNV-1a of 64 bits.
fn sum_of(bytes: &[u8]) -> u64 {
    let mut sum = 14_695_981_039_346_656_037u64;
    for b in bytes {
        sum = (sum ^ u64::from(*b)).wrapping_mul(1_099_511_628_211);
    }
    sum
}

/// What is told of a file and its script, `/` between the lines of the script.
fn told(alloc: Global, made: &Generated) -> Result<String, AllocError> {
    let bytes = made.file.bytes();
    let mut text = format!(in alloc; "bytes {} sum {}:", bytes.len(), sum_of(bytes))?;
    for b in made.script.bytes() {
        if *b == b'\n' {
            text.push_str(" /")?;
        } else {
            text.push(char::from(*b))?;
        }
    }
    Ok(text)
}

/// The answer to a row, a seed and a number of levels.
fn answer(alloc: Global, line: &str) -> Result<Option<String>, AllocError> {
    let Some((first, second)) = line.split_once(' ') else {
        return Ok(None);
    };
    match (first.parse::<u64>(), second.parse::<u32>()) {
        (Ok(seed), Ok(levels)) => Ok(Some(told(alloc, &generate(alloc, seed, levels)?)?)),
        _ => Ok(None),
    }
}

fn main(rt: HostRuntime) -> io::Result<()> {
    for line in rt.lines(rt.alloc()) {
        let line = line?;
        match answer(rt.alloc(), line.as_str()) {
            Ok(Some(text)) => println!(rt; "{} -> {}", line.as_str(), text.as_str())?,
            Ok(None) => println!(rt; "{}", line.as_str())?,
            Err(_) => println!(rt; "{} -> no memory", line.as_str())?,
        }
    }
    Ok(())
}
