//! What the numbers of representations are.

/// A section whose entries heads name.
#[derive(Clone, Copy, Debug, PartialEq, Eq)]
pub enum Table {
    Curve2s,
    Curves,
    Polygons,
    PolygonsOn,
    Surfaces,
    Meshes,
}

/// What one number of a representation is: an entry of a table, from 1; a location, from 0; or the place of a
/// continuity word among `C0`, `C1`, `C2`, `C3`, `CN`, `G1` and `G2`, from 0.
#[derive(Clone, Copy, Debug, PartialEq, Eq)]
pub enum Column {
    Entry(Table),
    Location,
    Continuity,
}
