//! Laws of history texts. Each function does nothing: its contract is the law.
ghost use Rattle.history_text.specs.Spelled.{FaultsHaveTheirLine, TextsSpellOneHistory};

use brep_tokens::laws::forms_are_exact;

/// A text spells at most one history, and is read as it; so is what `emit` writes of a history that can be read back.
pub fn texts_spell_one_history()
    ensures { TextsSpellOneHistory }
{
    forms_are_exact();
}

/// A text that goes on behind a history disagrees there, and one that breaks off disagrees at the line that is missing.
pub fn faults_have_their_line()
    ensures { FaultsHaveTheirLine }
{
    forms_are_exact();
}
