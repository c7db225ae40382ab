//! How many decimals the parts of a curve have.
ghost use Rattle.std.specs.Prelude.{◌≡◌, ◌≤◌};
ghost use Rattle.curve_tables.specs.Counts.{per_pole, plain_size, wrap_size};

use crate::parts::{Dimension, Wrap};

/// A pole, with its weight where the curve is rational.
pub fn pole_decimals(dimension: Dimension, rational: bool) -> u64
    ensures size { result ≡ per_pole dimension rational }
    ensures small { result ≤ 4 }
{
    match dimension {
        Dimension::Plane => { if rational { 3 } else { 2 } }
        Dimension::Space => { if rational { 4 } else { 3 } }
    }
}

/// A line, circle, ellipse, parabola or hyperbola.
pub fn plain_decimals(dimension: Dimension, code: u64) -> u64
    ensures { result ≡ plain_size dimension code }
{
    match dimension {
        Dimension::Plane => match code {
            1 => 4,
            2 => 7,
            3 => 8,
            4 => 7,
            _ => 8,
        },
        Dimension::Space => match code {
            1 => 6,
            2 => 13,
            3 => 14,
            4 => 13,
            _ => 14,
        },
    }
}

/// A trimmed or offset curve, in front of its basis.
pub fn wrap_decimals(dimension: Dimension, wrap: Wrap) -> u64
    ensures { result ≡ wrap_size dimension wrap }
{
    match (dimension, wrap) {
        (_, Wrap::Trimmed) => 2,
        (Dimension::Plane, Wrap::Offset) => 1,
        (Dimension::Space, Wrap::Offset) => 4,
    }
}
