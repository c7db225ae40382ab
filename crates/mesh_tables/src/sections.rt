//! Each reader reads the entries of a section.
ghost use Rattle.mesh_tables.specs.MeshLeft.{MeshIsWhole, MeshWaits, mesh_left};
ghost use Rattle.mesh_tables.specs.Meshes.{mesh_at, polygon_at, polygon_on_at};
ghost use Rattle.mesh_tables.specs.PolygonLeft.{PolygonIsWhole, PolygonWaits, polygon_left};
ghost use Rattle.mesh_tables.specs.PolygonOnLeft.{PolygonOnIsWhole, PolygonOnWaits, polygon_on_left};

use crate::entries::{Mesh, Polygon3, PolygonOnMesh};
use crate::mesh_reader::MeshReader;
use crate::polygon_on_reader::PolygonOnMeshReader;
use crate::polygon_reader::Polygon3Reader;
use brep_tokens::{Progress, ReadStop, Token};
use entry_readers::EntryReader;
use std::alloc::Global;

impl EntryReader for Polygon3Reader {
    type Entry = Polygon3;

    ghost read = { polygon_at };

    ghost left = { polygon_left };

    ghost waits = { PolygonWaits };

    ghost whole = { PolygonIsWhole };

    fn begin(alloc: Global) -> Polygon3Reader {
        Polygon3Reader::new(alloc)
    }

    fn take_token(&mut self, t: &Token) -> Result<Progress, ReadStop> {
        self.take(t)
    }

    fn finish(self) -> Polygon3 {
        self.done()
    }
}

impl EntryReader for PolygonOnMeshReader {
    type Entry = PolygonOnMesh;

    ghost read = { polygon_on_at };

    ghost left = { polygon_on_left };

    ghost waits = { PolygonOnWaits };

    ghost whole = { PolygonOnIsWhole };

    fn begin(alloc: Global) -> PolygonOnMeshReader {
        PolygonOnMeshReader::new(alloc)
    }

    fn take_token(&mut self, t: &Token) -> Result<Progress, ReadStop> {
        self.take(t)
    }

    fn finish(self) -> PolygonOnMesh {
        self.done()
    }
}

impl EntryReader for MeshReader {
    type Entry = Mesh;

    ghost read = { mesh_at };

    ghost left = { mesh_left };

    ghost waits = { MeshWaits };

    ghost whole = { MeshIsWhole };

    fn begin(alloc: Global) -> MeshReader {
        MeshReader::new(alloc)
    }

    fn take_token(&mut self, t: &Token) -> Result<Progress, ReadStop> {
        self.take(t)
    }

    fn finish(self) -> Mesh {
        self.done()
    }
}
