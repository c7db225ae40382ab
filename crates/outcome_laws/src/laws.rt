//! The answers and the texts of a rewriting, each law the contract of a function that does nothing.
ghost use Rattle.std.specs.Prelude.{ℕ, List};
ghost use Rattle.brep_desk.specs.Shown.{Shown, Tells};
ghost use Rattle.brep_file.specs.declared.file.File.{File};
ghost use Rattle.outcome_laws.specs.OneOutcome.{AnswersAgree, TextsAreOne};

use brep_file::laws::reading_is_exact;
use run_laws::laws::runs_agree;

/// Two answers to a script agree, and what the names hold has one pair of texts that are due.
pub fn outcomes_agree()
    ensures answers { (f : File) (lines : List ℕ) → AnswersAgree f lines }
    ensures texts { (t : Tells) (old : Shown) (source script : List ℕ) → TextsAreOne t old source script }
{
    reading_is_exact();
    runs_agree();
}
