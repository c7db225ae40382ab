//! The lines of the file, and of its script.
ghost use Rattle.std.specs.Prelude.{◌≡◌, ◌∷◌, ◌++◌, ◌<◌, ◌^◌, [], codes, OnOk};
ghost use Rattle.std.specs.Fmt.{decimal};
ghost use Rattle.brep_tokens.specs.Tokens.{version_line};
ghost use Rattle.brep_tokens.specs.Written.{lines_text};
ghost use Rattle.brep_gen.specs.Generated.{file_text, heading, nought, record_count, record_lines, script_text};
ghost use Rattle.brep_gen.specs.Generated.{table_lines};

use crate::draws::Draws;
use crate::levels::push_levels;
use crate::records::{push_edges, push_vertices, push_whole};
use crate::words::push_number;
use std::alloc::AllocError;

/// How many records the file has.
fn count_of(levels: u64) -> u64
    requires { levels < 2 ^ 32 }
    ensures { result ≡ record_count levels }
{
    2_049 + 1_024 * levels
}

/// The version line, and the tables.
fn push_tables(text: &mut Vec<u8>) -> Result<(), AllocError>
    ensures { OnOk result (text.new.items ≡ text.old.items ++ version_line 1 ++ 10 ∷ lines_text table_lines) }
{
    text.extend_from_slice(b"CASCADE Topology V1, (c) Matra-Datavision\nLocations 3\n")?;
    text.extend_from_slice(b"1 1 0 0 1 0 1 0 0 0 0 1 0\n1 1 0 0 0 0 1 0 1 0 0 1 0\n")?;
    text.extend_from_slice(b"1 1 0 0 0 0 1 0 0 0 0 1 1\nCurve2ds 0\nCurves 0\nPolygon3D 0\n")?;
    text.extend_from_slice(b"PolygonOnTriangulations 0\nSurfaces 0\nTriangulations 0\n")?;
    Ok(())
}

/// The heading of the records.
fn push_heading(text: &mut Vec<u8>, count: u64) -> Result<(), AllocError>
    ensures { OnOk result (text.new.items ≡ text.old.items
        ++ lines_text (heading (codes "TShapes") (decimal count) ∷ [])) }
{
    text.extend_from_slice(b"TShapes ")?;
    push_number(text, count)?;
    text.push(b'\n')?;
    Ok(())
}

/// The root use.
fn push_root(text: &mut Vec<u8>) -> Result<(), AllocError>
    ensures { OnOk result (text.new.items ≡ text.old.items ++ lines_text ((codes "+1" ∷ nought ∷ []) ∷ [])) }
{
    text.extend_from_slice(b"+1 0\n")
}

/// The records.
fn push_records(text: &mut Vec<u8>, seed: u64, levels: u64) -> Result<(), AllocError>
    requires { levels < 2 ^ 32 }
    ensures { OnOk result (text.new.items ≡ text.old.items ++ lines_text (record_lines seed levels)) }
{
    let n = count_of(levels);
    let mut draws = Draws { state: seed };
    push_vertices(text)?;
    push_edges(text, n)?;
    push_levels(text, &mut draws, n, levels)?;
    push_whole(text, n, 1_024 * (levels + 1))?;
    Ok(())
}

/// The file.
pub(crate) fn push_file(text: &mut Vec<u8>, seed: u64, levels: u64) -> Result<(), AllocError>
    requires { levels < 2 ^ 32 }
    ensures { OnOk result (text.new.items ≡ text.old.items ++ file_text seed levels) }
{
    push_tables(text)?;
    push_heading(text, count_of(levels))?;
    push_records(text, seed, levels)?;
    push_root(text)?;
    Ok(())
}

/// The script.
pub(crate) fn push_script(text: &mut Vec<u8>, levels: u64) -> Result<(), AllocError>
    requires { levels < 2 ^ 32 }
    ensures { OnOk result (text.new.items ≡ text.old.items ++ script_text levels) }
{
    let n = count_of(levels);
    text.extend_from_slice(b"merge ")?;
    push_number(text, n)?;
    text.push(b' ')?;
    push_number(text, n - 1)?;
    text.extend_from_slice(b"\napply\nremove ")?;
    push_number(text, n - 1_029)?;
    text.extend_from_slice(b"\napply\n")?;
    Ok(())
}
