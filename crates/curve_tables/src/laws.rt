//! Laws of reading and spelling. Each function does nothing: its contract is the law.
ghost use Rattle.curve_tables.specs.Laws.{CurvesAreExact};
ghost use Rattle.curve_tables.specs.Parts.{ChainsAreExact};

use entry_readers::laws::{fields_are_decimals, fields_are_exact};

/// A curve in its frames is read exactly as it is spelled.
fn chains_are_exact()
    ensures { ChainsAreExact }
{
    fields_are_exact();
}

/// A curve is read exactly as it is spelled.
pub fn curves_are_exact()
    ensures { CurvesAreExact }
{
    fields_are_decimals();
    chains_are_exact();
}
