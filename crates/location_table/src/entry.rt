//! An entry of the section `Locations`.
use brep_tokens::Decimals;
use lists::ListOf;

/// A power of the location at an earlier place of the section, counted from 1.
#[derive(Clone, Copy, Debug, PartialEq, Eq)]
pub struct Factor {
    pub place: u32,
    /// How often it is applied; a negative power applies its inverse.
    pub power: i64,
}

/// The factors of a product, the one that is applied first in front.
pub type Factors = ListOf<Factor>;

/// An entry of the section `Locations`.
#[derive(Drop)]
pub enum LocationEntry {
    /// An elementary transformation (record kind 1): the twelve decimals of its three rows of four, as they are
    /// spelled.
    Datum(Decimals),
    /// A product of powers of earlier locations (record kind 2). A later factor is applied after an earlier one.
    Product(Factors),
}
