//! Laws of reading and spelling. Each function does nothing: its contract is the law.
ghost use Rattle.surface_tables.specs.Laws.{SurfacesAreExact};

use curve_tables::laws::curves_are_exact;
use entry_readers::laws::{fields_are_decimals, fields_are_exact};

/// A surface is read exactly as it is spelled.
pub fn surfaces_are_exact()
    ensures { SurfacesAreExact }
{
    fields_are_exact();
    fields_are_decimals();
    curves_are_exact();
}
