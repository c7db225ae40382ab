//! Laws of heads. Each function does nothing: its contract is the law.
ghost use Rattle.tshape_data.specs.Laws.{HeadsAreExact, HeadsCanBeSpelled, HeadsTell, LinesAreExact};
ghost use Rattle.tshape_data.specs.Laws.{RenumberingKeepsParts};

use brep_tokens::laws::{forms_are_exact, written_is_read};
use entry_readers::laws::fields_are_exact;
use orientation::laws::signs_and_names_tell;

/// A head is read exactly as it is spelled.
pub fn heads_are_exact()
    ensures { HeadsAreExact }
{
    forms_are_exact();
    fields_are_exact();
    signs_and_names_tell();
}

/// Tokens spell one sound head at most, also where it has more representations than a reader takes.
pub fn heads_tell()
    ensures { HeadsTell }
{
    forms_are_exact();
    fields_are_exact();
    signs_and_names_tell();
}

/// The locations of a sound head are those of its file; with others in their stead it is sound, and the same but for
/// them.
pub fn renumbering_keeps_parts()
    ensures { RenumberingKeepsParts }
{}

/// The lines of a sound head, split into tokens, are what it is spelled by.
pub fn head_lines_are_exact()
    ensures { LinesAreExact }
{
    written_is_read();
}

/// A sound head whose tokens have at most 128 bytes can be spelled; so can it with other locations.
pub fn heads_can_be_spelled()
    ensures { HeadsCanBeSpelled }
{}
