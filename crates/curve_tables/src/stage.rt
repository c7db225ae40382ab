//! Which token of a curve is due.

use crate::parts::{Form, Wrap};

/// What comes after the decimals.
#[derive(Clone, Copy)]
pub enum After {
    /// So many knots, and the curve is whole.
    Leaf { form: Form, knots: u64 },
    /// The basis.
    Basis { wrap: Wrap },
}

/// What is due next.
#[derive(Clone, Copy)]
pub enum Stage {
    Code,
    BezierRational,
    BezierDegree {
        rational: bool,
    },
    SplineRational,
    SplineFlag {
        rational: bool,
    },
    SplineDegree {
        rational: bool,
        flag: bool,
    },
    SplinePoles {
        rational: bool,
        flag: bool,
        degree: u64,
    },
    SplineKnots {
        form: Form,
        decimals: u64,
    },
    Texts {
        after: After,
    },
    Knots {
        form: Form,
    },
}
