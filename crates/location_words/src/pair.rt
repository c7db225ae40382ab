//! Powers of datums.

/// A power of a datum, the factor of which words are made.
#[derive(Clone, Copy, Debug, Default, PartialEq, Eq, Hash)]
pub struct Pair {
    /// The number of an elementary transformation, counted from 1 in a file.
    pub datum: u32,
    /// How often it is applied; a negative power applies its inverse.
    pub power: i64,
}
