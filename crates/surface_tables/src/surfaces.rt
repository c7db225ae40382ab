//! The surfaces of a section.
use crate::surface::Surface;
use lists::ListOf;

/// The entries of the section `Surfaces`.
pub type Surfaces = ListOf<Surface>;
