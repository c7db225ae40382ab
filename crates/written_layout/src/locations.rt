//! The lines of the locations that are written.
ghost use Rattle.brep_tokens.specs.Written.{line_text};
ghost use Rattle.location_table.specs.Locations.{spell_location};
ghost use Rattle.location_table.specs.Spell.{CanSpellLocation};
ghost use Rattle.location_table.specs.Written.{product_of};
ghost use Rattle.std.specs.Prelude.{◌∷◌, All, []};
ghost use Rattle.written_layout.specs.Layout.{datums_text, locations_of, locations_text, pair_text, words_text};
ghost use Rattle.written_locations.specs.Added.{further_of, IsNumbering};

use crate::lines::{push_heading, push_number};
use crate::tables::TableEntry;
use byte_sink::{TakesBytes, push_byte};
use itoa::Buffer;
use location_table::{LocationEntry, Locations};
use location_words::Pair;
use written_locations::WrittenLocations;
use written_locations::laws::sections_hold;

/// The line of an entry that is a datum; of another entry nothing.
fn push_if_datum<B: TakesBytes>(text: &mut B, entry: &LocationEntry)
    requires { CanSpellLocation entry.now }
    ensures { B.gives text.old (datums_text (entry.now ∷ [])) text.new }
{
    match entry {
        LocationEntry::Datum(_) => entry.push_to(text),
        LocationEntry::Product(_) => {}
    }
}

/// The lines of a section's datums.
fn push_datums<B: TakesBytes>(text: &mut B, section: &Locations)
    requires { All CanSpellLocation section.now }
    ensures { B.gives text.old (datums_text section.now) text.new }
{
    for entry in section.as_slice() {
        push_if_datum(text, entry);
    }
}

/// A power of a datum, with a space before each of the two numbers.
fn push_pair<B: TakesBytes>(text: &mut B, pair: Pair)
    ensures { B.gives text.old (pair_text pair) text.new }
{
    push_byte(text, b' ');
    push_number(text, pair.datum as usize);
    push_byte(text, b' ');
    let mut buffer = Buffer::new();
    text.push(buffer.format(pair.power).as_bytes());
}

/// The line of a word: the product of its pairs, innermost first.
fn push_word<B: TakesBytes>(text: &mut B, pairs: &[Pair])
    ensures { B.gives text.old (line_text (spell_location (product_of pairs.now))) text.new }
{
    push_byte(text, b'2');
    for pair in pairs {
        push_pair(text, *pair);
    }
    text.push(b" 0\n");
}

/// The lines of the further words.
fn push_words<B: TakesBytes>(text: &mut B, locations: &WrittenLocations<'_>)
    requires { IsNumbering locations.now }
    ensures { B.gives text.old (words_text (further_of locations.now)) text.new }
{
    for i in 0..locations.len() {
        push_word(text, locations.further(i).pairs());
    }
}

/// The section `Locations`: the datums, and then the further words.
pub(crate) fn push_locations<B: TakesBytes>(text: &mut B, locations: &WrittenLocations<'_>)
    requires numbering { IsNumbering locations.now }
    requires can { All CanSpellLocation locations.now.section.now }
    ensures { B.gives text.old (locations_text (locations_of locations.now)) text.new }
{
    sections_hold();
    let section = locations.section();
    push_heading(
        text,
        b"Locations",
        section.datums() as usize + locations.len(),
    );
    push_datums(text, section);
    push_words(text, locations);
}
