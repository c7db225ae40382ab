//! Laws of tokens. Each function does nothing: its contract is the law.
ghost use Rattle.brep_tokens.specs.Laws.{FormsAreExact, ScannerGivesTokens};
ghost use Rattle.brep_tokens.specs.Written.{WrittenIsRead};

/// Each form of tokens is read exactly as it is spelled.
pub fn forms_are_exact()
    ensures { FormsAreExact }
{}

/// A scanner that is fed a whole text gives its version and its tokens.
pub fn scanner_gives_tokens()
    ensures { ScannerGivesTokens }
{}

/// What is written line by line is read back.
pub fn written_is_read()
    ensures { WrittenIsRead }
{}
