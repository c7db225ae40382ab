//! Reads the parts of a file from a scanner, token by token.
ghost use Rattle.brep_file.specs.Giving.{Gives, IsReading, TokenGiven};
ghost use Rattle.brep_file.specs.RecordLeft.{IsVersionRead, bounds_of, so_far_of};
ghost use Rattle.brep_file.specs.RecordReading.{nothing_read, records_from, root_at};
ghost use Rattle.brep_file.specs.SectionReading.{heading_at, location_section_at, section_at};
ghost use Rattle.brep_file.specs.Sound.{file_limits};
ghost use Rattle.entry_readers.specs.Entries.{entries_from};
ghost use Rattle.entry_readers.specs.Reading.{more};
ghost use Rattle.location_table.specs.Sections.{locations_at};
ghost use Rattle.std.specs.Prelude.{◌≡◌, ◌≤◌, [], Err, IfOk, length};

use crate::reader::heading::count_due;
use crate::reader::part::PartReader;
use crate::reader::records::RecordsReader;
use crate::reader::root::RootReader;
use crate::reader::state::{RecordBounds, SoFar};
use crate::uses::FileUse;
use brep_tokens::{Next, Progress, ReadCode, ReadFault, ReadStop, Scanner, Token};
use entry_readers::{EntryReader, Section, word_due};
use location_table::{Locations, LocationsReader};
use std::alloc::Global;

/// The next token.
fn next_token(s: &mut Scanner) -> Result<Token, ReadFault>
    requires { IsReading s.old }
    ensures { TokenGiven s.old s.new result }
{
    match s.next()? {
        Next::Token(t) => Ok(t),
        Next::End(size) => Err(ReadFault {
            code: ReadCode::Truncated,
            offset: size,
            value: 0,
            limit: 0,
        }),
        Next::Version(_) | Next::NeedMore(_) => unreachable!(),
    }
}

/// A part, once a reader that has taken none of its tokens yet has taken them all.
fn part<R: PartReader>(s: &mut Scanner, reader: R) -> Result<R::Part, ReadStop>
    requires reading { IsReading s.old }
    requires waits { R.waits reader }
    requires open { R.left reader [] ≡ Err more }
    ensures { Gives R.view (R.left reader) s.old s.new result }
{
    let mut reader = reader;
    'tokens: loop {
        let t = next_token(s)?;
        match reader.take_token(&t)? {
            Progress::More => {}
            Progress::Whole => return Ok(reader.finish()),
        }
    }
}

/// A section's word and count, at most `most`.
pub(crate) fn heading(s: &mut Scanner, word: &[u8], most: u64) -> Result<u64, ReadStop>
    requires { IsReading s.old }
    ensures given { Gives (λ n. n) (heading_at word.now most) s.old s.new result }
    ensures within { IfOk result (λ n. n ≤ most) }
{
    let first = next_token(s)?;
    word_due(word, &first)?;
    let second = next_token(s)?;
    Ok(count_due(most, &second)?)
}

/// So many locations.
fn locations(alloc: Global, s: &mut Scanner, count: u64) -> Result<Locations, ReadStop>
    requires reading { IsReading s.old }
    requires few { count ≤ file_limits.entries }
    ensures { Gives (λ x. x) (locations_at count) s.old s.new result }
{
    if count == 0 {
        return Ok(Locations::new(alloc));
    }
    part(s, LocationsReader::new(alloc, count))
}

/// So many records.
pub(crate) fn records(
    alloc: Global,
    s: &mut Scanner,
    bounds: RecordBounds,
) -> Result<SoFar, ReadStop>
    requires reading { IsReading s.old }
    requires version { IsVersionRead bounds.version }
    ensures { Gives so_far_of (records_from (bounds_of bounds) nothing_read bounds.records) s.old s.new result }
{
    if bounds.records == 0 {
        return Ok(SoFar::new(alloc));
    }
    part(s, RecordsReader::new(alloc, bounds))
}

/// The root use.
pub(crate) fn root(s: &mut Scanner, locations: u32, records: u32) -> Result<FileUse, ReadStop>
    requires { IsReading s.old }
    ensures { Gives (λ x. x) (root_at locations records) s.old s.new result }
{
    part(s, RootReader::new(locations, records))
}

/// So many entries.
fn entries<R: EntryReader>(
    alloc: Global,
    s: &mut Scanner,
    count: u64,
) -> Result<Vec<R::Entry>, ReadStop>
    requires { IsReading s.old }
    ensures given { Gives (λ x. x.items) (entries_from R.read [] count) s.old s.new result }
    ensures many { IfOk result (λ x. length x.items ≡ count) }
{
    if count == 0 {
        return Ok(Vec::new(alloc));
    }
    part(s, Section::<R>::new(alloc, count))
}

/// A section of entries.
pub(crate) fn section<R: EntryReader>(
    alloc: Global,
    s: &mut Scanner,
    word: &[u8],
) -> Result<Vec<R::Entry>, ReadStop>
    requires { IsReading s.old }
    ensures given { Gives (λ x. x.items) (section_at word.now file_limits.entries R.read) s.old s.new result }
    ensures few { IfOk result (λ x. length x.items ≤ file_limits.entries) }
{
    let count = heading(s, word, 4_194_304)?;
    entries::<R>(alloc, s, count)
}

/// The section of locations.
pub(crate) fn location_section(alloc: Global, s: &mut Scanner) -> Result<Locations, ReadStop>
    requires { IsReading s.old }
    ensures { Gives (λ x. x) (location_section_at file_limits.entries) s.old s.new result }
{
    let count = heading(s, b"Locations", 4_194_304)?;
    locations(alloc, s, count)
}
