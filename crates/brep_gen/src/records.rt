//! Vertices and edges, and a compound of a whole level.
ghost use Rattle.std.specs.Prelude.{◌≡◌, ◌+◌, ◌-◌, ◌*◌, ◌<◌, ◌≤◌, ◌++◌, ◌^◌, OnOk};
ghost use Rattle.brep_tokens.specs.Written.{lines_text};
ghost use Rattle.brep_gen.specs.Generated.{edge_lines, forward, in_turn, use_words, vertex_lines, whole};
ghost use Rattle.brep_gen.specs.Spacing.{spaced};

use crate::words::{push_number, push_use};
use std::alloc::AllocError;

/// A vertex.
fn push_vertex(text: &mut Vec<u8>, j: u64) -> Result<(), AllocError>
    ensures { OnOk result (text.new.items ≡ text.old.items ++ lines_text (vertex_lines j)) }
{
    text.extend_from_slice(b"Ve\n1e-07\n")?;
    push_number(text, j)?;
    text.extend_from_slice(b" 0 0\n0 0\n\n0101101\n*\n")?;
    Ok(())
}

/// The vertices.
pub(crate) fn push_vertices(text: &mut Vec<u8>) -> Result<(), AllocError>
    ensures { OnOk result (text.new.items ≡ text.old.items ++ lines_text (in_turn 1024 vertex_lines)) }
{
    for j in 0..1024 {
        push_vertex(text, j)?;
    }
    Ok(())
}

/// An edge in a file of `n` records.
fn push_edge(text: &mut Vec<u8>, n: u64, j: u64) -> Result<(), AllocError>
    requires records { 1024 ≤ n }
    requires place { j < 1024 }
    ensures { OnOk result (text.new.items ≡ text.old.items ++ lines_text (edge_lines n j)) }
{
    text.extend_from_slice(b"Ed\n1e-07 1 1 0\n0\n\n0101000\n")?;
    push_use(text, b'+', n - j, 0)?;
    push_use(text, b'-', n - (j + 1) % 1024, 0)?;
    text.extend_from_slice(b"*\n")
}

/// The edges in a file of `n` records.
pub(crate) fn push_edges(text: &mut Vec<u8>, n: u64) -> Result<(), AllocError>
    requires { 1024 ≤ n }
    ensures { OnOk result (text.new.items ≡ text.old.items ++ lines_text (in_turn 1024 (edge_lines n))) }
{
    for j in 0..1024 {
        push_edge(text, n, j)?;
    }
    Ok(())
}

/// Uses of the 1,024 records from a place on.
fn push_all_uses(text: &mut Vec<u8>, n: u64, first: u64) -> Result<(), AllocError>
    requires { first + 1024 ≤ n }
    ensures { OnOk result (text.new.items ≡ text.old.items
        ++ spaced (in_turn 1024 (λ k. use_words forward (n - (first + k)) 0))) }
{
    for k in 0..1024 {
        push_use(text, b'+', n - (first + k), 0)?;
    }
    Ok(())
}

/// A compound of the 1,024 records from a place on.
pub(crate) fn push_whole(text: &mut Vec<u8>, n: u64, first: u64) -> Result<(), AllocError>
    requires { first + 1024 ≤ n }
    ensures { OnOk result (text.new.items ≡ text.old.items ++ lines_text (whole n first)) }
{
    text.extend_from_slice(b"Co\n\n0101000\n")?;
    push_all_uses(text, n, first)?;
    text.extend_from_slice(b"*\n")?;
    Ok(())
}
