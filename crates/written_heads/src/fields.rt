//! The words of a line, handed to what takes bytes.
ghost use Rattle.brep_tokens.specs.Forms.{flag_text};
ghost use Rattle.std.specs.Fmt.{decimal};
ghost use Rattle.std.specs.List.{flat_map};
ghost use Rattle.std.specs.Prelude.{◌≡◌, ◌<◌, ◌∷◌, ◌++◌, length, slice_index_or, []};
ghost use Rattle.tshape_data.specs.Flags.{flag_code, spell_flags};
ghost use Rattle.tshape_data.specs.Parts.{continuity_text};
ghost use Rattle.written_heads.specs.Words.{entries_text, IsWritten, located_text};
ghost use Rattle.written_locations.specs.Added.{IsNumbering, location_number};

use brep_tokens::Decimals;
use byte_sink::{TakesBytes, push_byte};
use itoa::Buffer;
use tshape_data::Flags;
use written_locations::WrittenLocations;

/// A space and a number.
pub(crate) fn push_number<B: TakesBytes>(text: &mut B, n: usize)
    ensures { B.gives text.old (32 ∷ decimal n) text.new }
{
    push_byte(text, b' ');
    let mut buffer = Buffer::new();
    text.push(buffer.format(n).as_bytes());
}

/// A space before each of the numbers of entries.
pub(crate) fn push_entries<B: TakesBytes>(text: &mut B, entries: &[u32])
    ensures { B.gives text.old (entries_text entries.now) text.new }
{
    for entry in entries {
        push_number(text, *entry as usize);
    }
}

/// A space and the written number of a location.
pub(crate) fn push_location<B: TakesBytes>(
    text: &mut B,
    location: u32,
    locations: &WrittenLocations<'_>,
)
    requires numbering { IsNumbering locations.now }
    requires written { IsWritten locations.now location }
    ensures { B.gives text.old (32 ∷ decimal (location_number locations.now location)) text.new }
{
    push_number(text, locations.number(location))
}

/// A space before each of the numbers of entries, and before the written number of a location.
pub(crate) fn push_located<B: TakesBytes>(
    text: &mut B,
    entries: &[u32],
    location: u32,
    locations: &WrittenLocations<'_>,
)
    requires numbering { IsNumbering locations.now }
    requires written { IsWritten locations.now location }
    ensures { B.gives text.old (located_text locations.now entries.now location) text.new }
{
    push_entries(text, entries);
    push_location(text, location, locations)
}

/// One of the decimals.
pub(crate) fn push_text<B: TakesBytes>(text: &mut B, decimals: &Decimals, at: usize)
    requires { at < length decimals.now }
    ensures { B.gives text.old (slice_index_or decimals.now at []) text.new }
{
    match decimals.get(at) {
        Some(decimal) => text.push(decimal),
        None => unreachable!(),
    }
}

/// One of the decimals, and a byte after it.
pub(crate) fn push_decimal<B: TakesBytes>(text: &mut B, decimals: &Decimals, at: usize, end: u8)
    requires { at < length decimals.now }
    ensures { B.gives text.old (slice_index_or decimals.now at [] ++ end ∷ []) text.new }
{
    push_text(text, decimals, at);
    push_byte(text, end);
}

/// The continuity word with a place among `C0`, `C1`, `C2`, `C3`, `CN`, `G1` and `G2`.
pub(crate) fn continuity_word(place: u8) -> [u8; 2]
    requires { place < 7 }
    ensures { result ≡ continuity_text place }
{
    match place {
        0 => *b"C0",
        1 => *b"C1",
        2 => *b"C2",
        3 => *b"C3",
        4 => *b"CN",
        5 => *b"G1",
        _ => *b"G2",
    }
}

/// `1` for a flag that is set, `0` for one that isn't.
pub(crate) fn flag_digit(flag: bool) -> u8
    ensures { result ≡ flag_code flag }
{
    b'0' + u8::from(flag)
}

/// The seven digits of the flags.
pub(crate) fn flag_digits(flags: &Flags) -> [u8; 7]
    ensures { result ≡ spell_flags flags.now }
{
    [
        flag_digit(flags.free),
        flag_digit(flags.modified),
        flag_digit(flags.checked),
        flag_digit(flags.orientable),
        flag_digit(flags.closed),
        flag_digit(flags.infinite),
        flag_digit(flags.convex),
    ]
}
