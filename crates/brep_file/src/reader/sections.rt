//! The sections of a file, in their order: each is read into the file so far, and then those that follow it.
ghost use Rattle.brep_file.specs.FileReading.{begun, from_curve2s, from_curves, from_locations, from_meshes};
ghost use Rattle.brep_file.specs.FileReading.{from_polygons, from_polygons_on, from_records, from_root, from_surfaces};
ghost use Rattle.brep_file.specs.Giving.{Gives, IsPartRead, IsReading, from_counted};
ghost use Rattle.brep_file.specs.Sound.{file_limits, sizes_of};
ghost use Rattle.std.specs.Prelude.{◌≡◌, length};

use crate::file::File;
use crate::reader::pull::{heading, location_section, records, root, section};
use crate::reader::state::RecordBounds;
use crate::records::Records;
use crate::uses::FileUse;
use brep_tokens::{ReadStop, Scanner};
use curve_tables::{Curve2Reader, Curve3Reader};
use lists::ListOf;
use location_table::Locations;
use mesh_tables::{MeshReader, Polygon3Reader, PolygonOnMeshReader};
use orientation::Turn;
use std::alloc::Global;
use surface_tables::{SurfaceReader, Surfaces};
use tshape_data::HeadBounds;

/// A file of which nothing was read but its version.
pub(crate) fn begun_file(alloc: Global, version: u8) -> File
    ensures { result ≡ begun version }
{
    File {
        version,
        locations: Locations::new(alloc),
        curve2s: ListOf::new(alloc),
        curves: ListOf::new(alloc),
        polygons: ListOf::new(alloc),
        polygons_on: ListOf::new(alloc),
        surfaces: Surfaces::new(alloc),
        meshes: ListOf::new(alloc),
        records: Records::new(alloc),
        root: FileUse {
            turn: Turn::Forward,
            number: 0,
            location: 0,
        },
    }
}

/// Reads the locations and what follows them.
pub(crate) fn with_locations(alloc: Global, s: &mut Scanner, file: File) -> Result<File, ReadStop>
    requires reading { IsReading s.old }
    requires part { IsPartRead file }
    ensures { Gives (λ f. f) (from_locations file_limits file) s.old s.new result }
{
    let mut file = file;
    let locations = location_section(alloc, s)?;
    file.locations = locations;
    with_curve2s(alloc, s, file)
}

/// Reads the 2D curves and what follows them.
fn with_curve2s(alloc: Global, s: &mut Scanner, file: File) -> Result<File, ReadStop>
    requires reading { IsReading s.old }
    requires part { IsPartRead file }
    ensures { Gives (λ f. f) (from_curve2s file_limits file) s.old s.new result }
{
    let mut file = file;
    let entries = section::<Curve2Reader>(alloc, s, b"Curve2ds")?;
    file.curve2s = ListOf::from_vec(entries);
    with_curves(alloc, s, file)
}

/// Reads the 3D curves and what follows them.
fn with_curves(alloc: Global, s: &mut Scanner, file: File) -> Result<File, ReadStop>
    requires reading { IsReading s.old }
    requires part { IsPartRead file }
    ensures { Gives (λ f. f) (from_curves file_limits file) s.old s.new result }
{
    let mut file = file;
    let entries = section::<Curve3Reader>(alloc, s, b"Curves")?;
    file.curves = ListOf::from_vec(entries);
    with_polygons(alloc, s, file)
}

/// Reads the polygons in space and what follows them.
fn with_polygons(alloc: Global, s: &mut Scanner, file: File) -> Result<File, ReadStop>
    requires reading { IsReading s.old }
    requires part { IsPartRead file }
    ensures { Gives (λ f. f) (from_polygons file_limits file) s.old s.new result }
{
    let mut file = file;
    let entries = section::<Polygon3Reader>(alloc, s, b"Polygon3D")?;
    file.polygons = ListOf::from_vec(entries);
    with_polygons_on(alloc, s, file)
}

/// Reads the polygons on meshes and what follows them.
fn with_polygons_on(alloc: Global, s: &mut Scanner, file: File) -> Result<File, ReadStop>
    requires reading { IsReading s.old }
    requires part { IsPartRead file }
    ensures { Gives (λ f. f) (from_polygons_on file_limits file) s.old s.new result }
{
    let mut file = file;
    let entries = section::<PolygonOnMeshReader>(alloc, s, b"PolygonOnTriangulations")?;
    file.polygons_on = ListOf::from_vec(entries);
    with_surfaces(alloc, s, file)
}

/// Reads the surfaces and what follows them.
fn with_surfaces(alloc: Global, s: &mut Scanner, file: File) -> Result<File, ReadStop>
    requires reading { IsReading s.old }
    requires part { IsPartRead file }
    ensures { Gives (λ f. f) (from_surfaces file_limits file) s.old s.new result }
{
    let mut file = file;
    let entries = section::<SurfaceReader>(alloc, s, b"Surfaces")?;
    file.surfaces = Surfaces::from_vec(entries);
    with_meshes(alloc, s, file)
}

/// Reads the meshes and what follows them.
fn with_meshes(alloc: Global, s: &mut Scanner, file: File) -> Result<File, ReadStop>
    requires reading { IsReading s.old }
    requires part { IsPartRead file }
    ensures { Gives (λ f. f) (from_meshes file_limits file) s.old s.new result }
{
    let mut file = file;
    let entries = section::<MeshReader>(alloc, s, b"Triangulations")?;
    file.meshes = ListOf::from_vec(entries);
    with_records(alloc, s, file)
}

/// The records, and the root use.
fn with_records(alloc: Global, s: &mut Scanner, file: File) -> Result<File, ReadStop>
    requires reading { IsReading s.old }
    requires part { IsPartRead file }
    ensures { Gives (λ f. f) (from_records file_limits file) s.old s.new result }
{
    let count = heading(s, b"TShapes", 2_097_152)?;
    with_counted(alloc, s, file, count as u32)
}

/// So many records, and the root use.
fn with_counted(alloc: Global, s: &mut Scanner, file: File, count: u32) -> Result<File, ReadStop>
    requires reading { IsReading s.old }
    requires part { IsPartRead file }
    ensures { Gives (λ f. f) (from_counted file count) s.old s.new result }
{
    let mut file = file;
    let bounds = RecordBounds {
        tables: sizes(&file),
        version: file.version,
        records: count,
    };
    let so_far = records(alloc, s, bounds)?;
    file.records = so_far.records;
    with_root(s, file, count)
}

/// How many entries each table has.
fn sizes(file: &File) -> HeadBounds
    requires { IsPartRead file.now }
    ensures { result ≡ sizes_of file.now }
{
    HeadBounds {
        locations: file.locations.len(),
        curve2s: file.curve2s.len() as u32,
        curves: file.curves.len() as u32,
        polygons: file.polygons.len() as u32,
        polygons_on: file.polygons_on.len() as u32,
        surfaces: file.surfaces.len() as u32,
        meshes: file.meshes.len() as u32,
        reps: 0,
    }
}

/// The root use.
fn with_root(s: &mut Scanner, file: File, records: u32) -> Result<File, ReadStop>
    requires reading { IsReading s.old }
    requires count { length file.records ≡ records }
    ensures { Gives (λ f. f) (from_root file) s.old s.new result }
{
    let mut file = file;
    let root = root(s, file.locations.len(), records)?;
    file.root = root;
    Ok(file)
}
