//! What comes before the records.
ghost use Rattle.brep_file.specs.Sound.{IsSound};
ghost use Rattle.brep_tokens.specs.Tokens.{version_line};
ghost use Rattle.std.specs.Prelude.{◌≡◌, ◌⊎◌, ◌∷◌, ◌++◌, []};
ghost use Rattle.written_layout.specs.Layout.{locations_of, text_before_records};
ghost use Rattle.written_locations.specs.Added.{IsNumbering};

use crate::locations::push_locations;
use crate::tables::push_tables;
use brep_file::File;
use byte_sink::TakesBytes;
use written_locations::WrittenLocations;

/// The version line of version 1, and of version 2.
fn version_bytes(version: u8) -> &'static [u8]
    requires { (version ≡ 1) ⊎ (version ≡ 2) }
    ensures { result.now ≡ version_line version ++ 10 ∷ [] }
{
    if version == 2 {
        b"CASCADE Topology V2, (c) Matra-Datavision\n"
    } else {
        b"CASCADE Topology V1, (c) Matra-Datavision\n"
    }
}

/// The version line, the locations and the tables of a file that is written in a version.
pub fn push_beginning<B: TakesBytes>(
    text: &mut B,
    file: &File,
    version: u8,
    locations: &WrittenLocations<'_>,
)
    requires sound { IsSound file.now }
    requires version { (version ≡ 1) ⊎ (version ≡ 2) }
    requires numbering { IsNumbering locations.now }
    requires section { locations.now.section.now ≡ file.now.locations }
    ensures { B.gives text.old (text_before_records version file.now (locations_of locations.now)) text.new }
{
    text.push(version_bytes(version));
    push_locations(text, locations);
    push_tables(text, file);
}
