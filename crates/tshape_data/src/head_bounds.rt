//! What the numbers in a head are bounded by.

/// How many entries each section before the records has, and how many representations stand in the records before one.
#[derive(Clone, Copy, Debug, PartialEq, Eq)]
pub struct HeadBounds {
    pub locations: u32,
    pub curve2s: u32,
    pub curves: u32,
    pub polygons: u32,
    pub polygons_on: u32,
    pub surfaces: u32,
    pub meshes: u32,
    pub reps: u64,
}
