//! All ways to carry out a script, each the contract of a function that does nothing.
ghost use Rattle.std.specs.Prelude.{ℕ, List};
ghost use Rattle.brep_file.specs.declared.file.File.{File};
ghost use Rattle.run_laws.specs.Agreeing.{RunsAgree, ScriptsAgree};

use expansion_laws::laws::{
    cycles_are_determined, equal_trees_tell, measures_are_listed, results_are_determined,
    roots_are_written,
};

/// The requests of a step come in one order or another, where a name stands for several trees; what comes of a script
/// doesn't depend on it.
pub fn runs_agree()
    ensures commands { (f : File) → RunsAgree f }
    ensures scripts { (f : File) (bytes : List ℕ) → ScriptsAgree f bytes }
{
    equal_trees_tell();
    results_are_determined();
    cycles_are_determined();
    measures_are_listed();
    roots_are_written();
}
