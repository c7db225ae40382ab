//! The parts of a curve: what it is, and the trimmed and offset curves that it is the basis of.
use brep_tokens::Decimals;
use lists::ListOf;

/// Where a curve lies: in the parameter plane of a surface, or in space.
#[derive(Clone, Copy)]
pub enum Dimension {
    Plane,
    Space,
}

/// What a curve without a basis is, but for its decimals and knots.
#[derive(Clone, Copy)]
pub enum Form {
    Plain {
        code: u8,
    },
    Bezier {
        rational: bool,
        degree: u64,
    },
    BSpline {
        rational: bool,
        flag: bool,
        degree: u64,
        pole_count: u64,
    },
}

/// What a curve with a basis is.
#[derive(Clone, Copy)]
pub enum Wrap {
    Trimmed,
    Offset,
}

/// A trimmed or offset curve, but for its basis.
#[derive(Drop)]
pub struct Frame {
    pub wrap: Wrap,
    pub texts: Decimals,
}

/// Frames, the outermost first.
pub type Frames = ListOf<Frame>;
