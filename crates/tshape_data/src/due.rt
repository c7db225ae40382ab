//! The kind, the flags or the continuity word that is due.
ghost use Rattle.std.specs.Prelude.{◌≡◌, ◌<◌, IfOk};
ghost use Rattle.std.specs.List.{list_all};
ghost use Rattle.brep_tokens.specs.Bytes.{is_flag};
ghost use Rattle.entry_readers.specs.Reading.{ranged_at};
ghost use Rattle.entry_readers.specs.Takes.{Answers};
ghost use Rattle.tshape_data.specs.Flags.{flags_of};
ghost use Rattle.tshape_data.specs.HeadReading.{flags_at, kind_at};
ghost use Rattle.tshape_data.specs.ColumnsLeft.{FitsColumn};
ghost use Rattle.tshape_data.specs.RepReading.{column_at, continuity_at, size_of};

use crate::columns::{Column, Table};
use crate::head::Flags;
use crate::head_bounds::HeadBounds;
use brep_tokens::{ReadCode, ReadFault, Token, continuity};
use entry_readers::{fault_at, ranged_due};
use orientation::{Kind, kind_of_name};

/// The name of a kind is due.
pub fn kind_due(t: &Token) -> Result<Kind, ReadFault>
    ensures { Answers kind_at t.now result }
{
    match kind_of_name(t.bytes()) {
        Some(kind) => Ok(kind),
        None => Err(fault_at(ReadCode::WordExpected, 0, 0, t)),
    }
}

/// Is the byte `0` or `1`?
fn flag_byte(b: u8) -> bool
    ensures { result ≡ is_flag b }
{
    b == b'0' || b == b'1'
}

fn all_flags(text: &[u8]) -> bool
    ensures { result ≡ list_all is_flag text.now }
{
    for b in text {
        if !flag_byte(*b) {
            return false;
        }
    }
    true
}

/// The flags that a text spells.
fn flags(text: &[u8]) -> Option<Flags>
    ensures { result ≡ flags_of text.now }
{
    if text.len() == 7 && all_flags(text) {
        Some(Flags {
            free: text[0] == b'1',
            modified: text[1] == b'1',
            checked: text[2] == b'1',
            orientable: text[3] == b'1',
            closed: text[4] == b'1',
            infinite: text[5] == b'1',
            convex: text[6] == b'1',
        })
    } else {
        None
    }
}

/// The seven flags are due.
pub fn flags_due(t: &Token) -> Result<Flags, ReadFault>
    ensures { Answers flags_at t.now result }
{
    match flags(t.bytes()) {
        Some(flags) => Ok(flags),
        None => Err(fault_at(ReadCode::FlagExpected, 0, 0, t)),
    }
}

/// A continuity word is due.
fn continuity_due(t: &Token) -> Result<u8, ReadFault>
    ensures { Answers continuity_at t.now result }
{
    match continuity(t.bytes()) {
        Some(place) => Ok(place),
        None => Err(fault_at(ReadCode::WordExpected, 0, 0, t)),
    }
}

/// How many entries a table has.
fn size_of(bounds: &HeadBounds, table: Table) -> u32
    ensures { result ≡ size_of bounds.now table }
{
    match table {
        Table::Curve2s => bounds.curve2s,
        Table::Curves => bounds.curves,
        Table::Polygons => bounds.polygons,
        Table::PolygonsOn => bounds.polygons_on,
        Table::Surfaces => bounds.surfaces,
        Table::Meshes => bounds.meshes,
    }
}

/// A number from `low` to `high` is due.
pub fn index_due(low: u32, high: u32, t: &Token) -> Result<u32, ReadFault>
    ensures { Answers (ranged_at low high) t.now result }
{
    let n = ranged_due(u64::from(low), u64::from(high), t)?;
    Ok(n as u32)
}

/// A number of a representation is due.
pub fn column_due(bounds: &HeadBounds, column: Column, t: &Token) -> Result<u32, ReadFault>
    ensures answer { Answers (column_at bounds.now column) t.now result }
    ensures fits { IfOk result (λ n. FitsColumn column n) }
{
    match column {
        Column::Entry(table) => index_due(1, size_of(bounds, table), t),
        Column::Location => index_due(0, bounds.locations, t),
        Column::Continuity => Ok(u32::from(continuity_due(t)?)),
    }
}
