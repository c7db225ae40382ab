//! Curves in the parameter plane of a surface.
ghost use Rattle.std.specs.Prelude.{◌≡◌, IfOk};
ghost use Rattle.curve_tables.specs.Curves.{framed2, leaf2, wrapped2};

use crate::parts::{Form, Frame, Frames, Wrap};
use brep_tokens::{Decimals, Numbers};
use sqlite_items::Boxed;
use std::alloc::{AllocError, Global};

/// An entry of the section `Curve2ds`. Coordinates and parameters are kept as they are spelled.
#[derive(Drop)]
pub enum Curve2 {
    /// A line (code 1, 4 decimals), circle (2, 7), ellipse (3, 8), parabola (4, 7) or hyperbola (5, 8).
    Plain {
        code: u8,
        texts: Decimals,
    },
    /// Code 6. One pole more than the degree, each of 2 decimals, and of a weight where the curve is rational.
    Bezier {
        rational: bool,
        degree: u64,
        poles: Decimals,
    },
    /// Code 7. The poles have their weights as in a Bezier curve; each knot has a multiplicity.
    BSpline {
        rational: bool,
        flag: bool,
        degree: u64,
        pole_count: u64,
        poles: Decimals,
        knots: Decimals,
        multiplicities: Numbers,
    },
    /// Code 8. The first and the last parameter.
    Trimmed {
        texts: Decimals,
        basis: Boxed<Curve2>,
    },
    /// Code 9. The offset.
    Offset {
        texts: Decimals,
        basis: Boxed<Curve2>,
    },
}

/// The curve of a form.
pub fn leaf(form: Form, texts: Decimals, knots: Decimals, multiplicities: Numbers) -> Curve2
    ensures { result ≡ leaf2 form texts (record { texts = knots; counts = multiplicities }) }
{
    match form {
        Form::Plain { code } => Curve2::Plain { code, texts },
        Form::Bezier { rational, degree } => Curve2::Bezier {
            rational,
            degree,
            poles: texts,
        },
        Form::BSpline {
            rational,
            flag,
            degree,
            pole_count,
        } => Curve2::BSpline {
            rational,
            flag,
            degree,
            pole_count,
            poles: texts,
            knots,
            multiplicities,
        },
    }
}

/// The curve around a basis.
fn around(alloc: Global, frame: Frame, basis: Curve2) -> Result<Curve2, AllocError>
    ensures { IfOk result (λ c. c ≡ wrapped2 frame.wrap frame.texts basis) }
{
    let Frame { wrap, texts } = frame;
    let basis = Boxed::new(alloc, basis)?;
    match wrap {
        Wrap::Trimmed => Ok(Curve2::Trimmed { texts, basis }),
        Wrap::Offset => Ok(Curve2::Offset { texts, basis }),
    }
}

/// The curve in all the frames.
#[tactic(auto, using(crate::proofs::FrameLaws::framed2_last))]
pub fn framed(alloc: Global, frames: &mut Frames, leaf: Curve2) -> Result<Curve2, AllocError>
    ensures { IfOk result (λ c. c ≡ framed2 frames.old leaf) }
{
    let mut curve = leaf;
    'frames: while let Some(frame) = frames.pop() {
        curve = around(alloc, frame, curve)?;
    }
    Ok(curve)
}
