//! A file as a value, by the sections of the BREP format.
ghost use Rattle.brep_file.specs.PlainRecords.{record_of};
ghost use Rattle.expansion_laws.specs.Expansion.{IsNumberOf};
ghost use Rattle.std.specs.Prelude.{◌≡◌, Some, length};

use crate::records::{Record, Records};
use crate::uses::FileUse;
use curve_tables::{Curve2, Curve3};
use lists::ListOf;
use location_table::Locations;
use mesh_tables::{Meshes, Polygons, PolygonsOn};
use surface_tables::Surfaces;

/// A file of version 1 or 2.
#[derive(Drop)]
pub struct File {
    pub version: u8,
    pub locations: Locations,
    pub curve2s: ListOf<Curve2>,
    pub curves: ListOf<Curve3>,
    pub polygons: Polygons,
    pub polygons_on: PolygonsOn,
    pub surfaces: Surfaces,
    pub meshes: Meshes,
    pub records: Records,
    pub root: FileUse,
}

impl File {
    /// The record with a number.
    pub fn entry(&self, number: u32) -> &Record
        requires { IsNumberOf (length self.now.records) number }
        ensures { record_of self.now number ≡ Some result.now }
    {
        match self.records.get(self.records.len() - number as usize) {
            Some(record) => record,
            None => unreachable!(),
        }
    }
}
