//! Curves in space.
ghost use Rattle.std.specs.Prelude.{◌≡◌, IfOk};
ghost use Rattle.curve_tables.specs.Curves.{framed3, leaf3, wrapped3};

use crate::parts::{Form, Frame, Frames, Wrap};
use brep_tokens::{Decimals, Numbers};
use sqlite_items::Boxed;
use std::alloc::{AllocError, Global};

/// An entry of the section `Curves`. Coordinates and parameters are kept as they are spelled.
#[derive(Drop)]
pub enum Curve3 {
    /// A line (code 1, 6 decimals), circle (2, 13), ellipse (3, 14), parabola (4, 13) or hyperbola (5, 14).
    Plain {
        code: u8,
        texts: Decimals,
    },
    /// Code 6. One pole more than the degree, each of 3 decimals, and of a weight where the curve is rational.
    Bezier {
        rational: bool,
        degree: u64,
        poles: Decimals,
    },
    /// Code 7. The poles have their weights as in a Bezier curve; each knot has a multiplicity.
    BSpline {
        rational: bool,
        flag: bool,
        degree: u64,
        pole_count: u64,
        poles: Decimals,
        knots: Decimals,
        multiplicities: Numbers,
    },
    /// Code 8. The first and the last parameter.
    Trimmed {
        texts: Decimals,
        basis: Boxed<Curve3>,
    },
    /// Code 9. The offset and its direction, 4 decimals.
    Offset {
        texts: Decimals,
        basis: Boxed<Curve3>,
    },
}

/// The curve of a form.
pub fn leaf(form: Form, texts: Decimals, knots: Decimals, multiplicities: Numbers) -> Curve3
    ensures { result ≡ leaf3 form texts (record { texts = knots; counts = multiplicities }) }
{
    match form {
        Form::Plain { code } => Curve3::Plain { code, texts },
        Form::Bezier { rational, degree } => Curve3::Bezier {
            rational,
            degree,
            poles: texts,
        },
        Form::BSpline {
            rational,
            flag,
            degree,
            pole_count,
        } => Curve3::BSpline {
            rational,
            flag,
            degree,
            pole_count,
            poles: texts,
            knots,
            multiplicities,
        },
    }
}

/// The curve around a basis.
fn around(alloc: Global, frame: Frame, basis: Curve3) -> Result<Curve3, AllocError>
    ensures { IfOk result (λ c. c ≡ wrapped3 frame.wrap frame.texts basis) }
{
    let Frame { wrap, texts } = frame;
    let basis = Boxed::new(alloc, basis)?;
    match wrap {
        Wrap::Trimmed => Ok(Curve3::Trimmed { texts, basis }),
        Wrap::Offset => Ok(Curve3::Offset { texts, basis }),
    }
}

/// The curve in all the frames.
#[tactic(auto, using(crate::proofs::FrameLaws::framed3_last))]
pub fn framed(alloc: Global, frames: &mut Frames, leaf: Curve3) -> Result<Curve3, AllocError>
    ensures { IfOk result (λ c. c ≡ framed3 frames.old leaf) }
{
    let mut curve = leaf;
    'frames: while let Some(frame) = frames.pop() {
        curve = around(alloc, frame, curve)?;
    }
    Ok(curve)
}
