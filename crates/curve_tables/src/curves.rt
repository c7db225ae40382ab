//! The curves of a section.
use crate::curve2::Curve2;
use crate::curve3::Curve3;
use lists::ListOf;

/// The entries of the section `Curve2ds`.
pub type Curve2s = ListOf<Curve2>;

/// The entries of the section `Curves`.
pub type Curve3s = ListOf<Curve3>;
