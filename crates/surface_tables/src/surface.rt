//! Surfaces.
ghost use Rattle.std.specs.Prelude.{◌≡◌, IfOk};
ghost use Rattle.surface_tables.specs.Frames.{framed, framed_by};

use crate::parts::{Frame, Frames, Wrap};
use brep_tokens::{Decimals, Numbers};
use curve_tables::Curve3;
use sqlite_items::Boxed;
use std::alloc::{AllocError, Global};

/// The flags of a B-spline surface, each for the direction u or v: `urational` and `vrational` say that each pole has a
/// weight.
#[derive(Clone, Copy)]
pub struct SurfaceFlags {
    pub urational: bool,
    pub vrational: bool,
    pub uflag: bool,
    pub vflag: bool,
}

/// An entry of the section `Surfaces` of the BREP format. Decimals stand as they are spelled.
#[derive(Drop)]
pub enum Surface {
    /// 1 plane with 12 decimals, 2 cylinder with 13, 3 cone with 14, 4 sphere with 13, 5 torus with 14.
    Plain {
        code: u8,
        texts: Decimals,
    },
    /// 6 extrusion with 3 decimals, 7 revolution with 6, of a curve.
    Swept {
        code: u8,
        texts: Decimals,
        curve: Curve3,
    },
    /// Code 8. Each of the (udegree + 1) (vdegree + 1) poles is 3 decimals, and a weight where either flag is set.
    Bezier {
        urational: bool,
        vrational: bool,
        udegree: u64,
        vdegree: u64,
        poles: Decimals,
    },
    /// Code 9. Each of the upoles times vpoles poles is 3 decimals, and a weight where the surface is rational in
    /// either direction.
    BSpline {
        flags: SurfaceFlags,
        udegree: u64,
        vdegree: u64,
        upoles: u64,
        vpoles: u64,
        poles: Decimals,
        uknots: Decimals,
        umult: Numbers,
        vknots: Decimals,
        vmult: Numbers,
    },
    /// Code 10, a rectangular trim: 4 decimals, the ranges of u and v, and the surface that is trimmed.
    Trimmed {
        texts: Decimals,
        basis: Boxed<Surface>,
    },
    /// Code 11: the distance, and the surface that it is taken from.
    Offset {
        texts: Decimals,
        basis: Boxed<Surface>,
    },
}

/// The surface around a basis.
fn around(alloc: Global, frame: Frame, basis: Surface) -> Result<Surface, AllocError>
    ensures { IfOk result (λ s. s ≡ framed_by frame basis) }
{
    let Frame { wrap, texts } = frame;
    let basis = Boxed::new(alloc, basis)?;
    match wrap {
        Wrap::Trimmed => Ok(Surface::Trimmed { texts, basis }),
        Wrap::Offset => Ok(Surface::Offset { texts, basis }),
    }
}

/// The surface in all the frames.
#[tactic(auto, using(crate::proofs::FrameLaws::framed_last))]
pub fn framed(alloc: Global, frames: &mut Frames, leaf: Surface) -> Result<Surface, AllocError>
    ensures { IfOk result (λ s. s ≡ framed frames.old leaf) }
{
    let mut surface = leaf;
    'frames: while let Some(frame) = frames.pop() {
        surface = around(alloc, frame, surface)?;
    }
    Ok(surface)
}
