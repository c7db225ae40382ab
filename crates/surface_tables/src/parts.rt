//! The parts of a surface: what stands around it, and what it is.
use crate::surface::{Surface, SurfaceFlags};
use brep_tokens::Decimals;
use lists::ListOf;

/// What a surface stands in.
#[derive(Clone, Copy)]
pub enum Wrap {
    Trimmed,
    Offset,
}

/// A trimmed or offset surface, but for its basis.
#[derive(Drop)]
pub struct Frame {
    pub wrap: Wrap,
    pub texts: Decimals,
}

/// Frames, the outermost first.
pub type Frames = ListOf<Frame>;

/// A B-spline surface, but for its decimals and knots.
#[derive(Clone, Copy)]
pub struct Net {
    pub flags: SurfaceFlags,
    pub udegree: u64,
    pub vdegree: u64,
    pub upoles: u64,
    pub vpoles: u64,
}

/// What follows from the numbers of a surface: all but its decimals, its knots, and the curve or surface in it.
#[derive(Clone, Copy)]
pub enum Form {
    Plain {
        code: u8,
    },
    Swept {
        code: u8,
    },
    Bezier {
        urational: bool,
        vrational: bool,
        udegree: u64,
        vdegree: u64,
    },
    BSpline {
        net: Net,
        uknots: u64,
        vknots: u64,
    },
    Around {
        wrap: Wrap,
    },
}

/// A form, and how many decimals stand in it before any knot, curve or surface.
#[derive(Clone, Copy)]
pub struct Body {
    pub form: Form,
    pub decimals: u64,
}

/// What a code begins: a surface that needs no other surface, or a frame, in which a surface must follow.
#[derive(Drop)]
pub enum Part {
    Leaf(Surface),
    Open(Frame),
}
