//! Laws of script lines. Each function does nothing: its contract is the law.
ghost use Rattle.script_text.specs.Laws.{CommandsHaveLines, LinesSpellOneCommand};

use brep_tokens::laws::{forms_are_exact, written_is_read};

/// The words of a line spell at most one command, and are read as it.
pub fn lines_spell_one_command()
    ensures { LinesSpellOneCommand }
{
    forms_are_exact();
}

/// A command that a line can give has one line that is written for it, and is read from that line again; no line of the
/// command is shorter.
pub fn commands_have_lines()
    ensures { CommandsHaveLines }
{
    lines_spell_one_command();
    written_is_read();
}
