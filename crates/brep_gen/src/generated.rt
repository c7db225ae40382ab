//! A file and its script, made.
ghost use Rattle.std.specs.Prelude.{◌≡◌, IfOk};
ghost use Rattle.brep_gen.specs.Generated.{file_text, script_text};

use crate::file::{push_file, push_script};
use brep_desk::Bytes;
use std::alloc::{AllocError, Global};

/// A file in the written layout of version 1, and the lines of a script for it.
#[derive(Drop)]
pub struct Generated {
    pub file: Bytes,
    pub script: Bytes,
}

/// The file and the script of a seed: 1,024 vertices on a line, 1,024 edges between neighbours, so many levels of 1,024
/// compounds, each of four uses that are drawn from the level before, and a compound of the last level. The script
/// makes the first two vertices one, and removes an edge in a second step.
pub fn generate(alloc: Global, seed: u64, levels: u32) -> Result<Generated, AllocError>
    ensures file { IfOk result (λ made. made.file ≡ file_text seed levels) }
    ensures script { IfOk result (λ made. made.script ≡ script_text levels) }
{
    let mut file = Vec::new(alloc);
    push_file(&mut file, seed, u64::from(levels))?;
    let mut script = Vec::new(alloc);
    push_script(&mut script, u64::from(levels))?;
    Ok(Generated {
        file: Bytes::of(file),
        script: Bytes::of(script),
    })
}
