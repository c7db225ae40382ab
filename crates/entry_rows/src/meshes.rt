//! Rows of polygons and of meshes: the number of tokens, and the tokens that they are spelled by.

use crate::reading::entries;
use crate::saying::{add, add_token, counted, short, stopped};
use mesh_tables::{Mesh, MeshReader, Polygon3, Polygon3Reader, PolygonOnMesh, PolygonOnMeshReader};
use row_parts::Row;
use std::alloc::{AllocError, Global};

/// The answer to a row of this module.
pub fn answer(alloc: Global, row: &Row<'_>, text: &str) -> Result<Option<String>, AllocError> {
    let due = row.first.unwrap_or(1);
    let said = match row.word {
        "polygon" => polygons(alloc, due, text)?,
        "polygon-on" => polygons_on(alloc, due, text)?,
        "mesh" => meshes(alloc, due, text)?,
        _ => return Ok(None),
    };
    Ok(Some(said))
}

/// Appends the tokens of a polygon with less than a million nodes.
fn add_polygon(said: &mut String, polygon: &Polygon3) -> Result<(), AllocError> {
    let params = if polygon.params { polygon.nodes } else { 0 };
    if polygon.nodes >= 1_000_000 || polygon.texts.len() as u64 != 1 + 3 * polygon.nodes + params {
        return add(said, "not shaped");
    }
    if !short(&polygon.texts) {
        return add(said, "too long");
    }
    for token in polygon.spell() {
        add_token(said, &token)?;
    }
    Ok(())
}

/// Appends the tokens of a polygon on a mesh.
fn add_polygon_on(said: &mut String, polygon: &PolygonOnMesh) -> Result<(), AllocError> {
    let params = if polygon.params {
        polygon.nodes.len()
    } else {
        0
    };
    if polygon.texts.is_empty() || polygon.texts.len() - 1 != params {
        return add(said, "not shaped");
    }
    if !short(&polygon.texts) {
        return add(said, "too long");
    }
    for token in polygon.spell() {
        add_token(said, &token)?;
    }
    Ok(())
}

/// Appends the tokens of a mesh with less than a million nodes and triangles.
fn add_mesh(said: &mut String, mesh: &Mesh) -> Result<(), AllocError> {
    if mesh.nodes >= 1_000_000 || mesh.triangles >= 1_000_000 {
        return add(said, "not small");
    }
    let params = if mesh.uv { 2 * mesh.nodes } else { 0 };
    if mesh.texts.len() as u64 != 1 + 3 * mesh.nodes + params
        || mesh.corners.len() as u64 != 3 * mesh.triangles
    {
        return add(said, "not shaped");
    }
    if !short(&mesh.texts) {
        return add(said, "too long");
    }
    for token in mesh.spell() {
        add_token(said, &token)?;
    }
    Ok(())
}

/// So many polygons.
fn polygons(alloc: Global, due: u64, text: &str) -> Result<String, AllocError> {
    match entries::<Polygon3Reader>(alloc, due, text) {
        Err(stop) => stopped(alloc, &stop),
        Ok((polygons, tokens)) => {
            let mut said = counted(alloc, tokens)?;
            for polygon in polygons.as_slice() {
                add_polygon(&mut said, polygon)?;
            }
            Ok(said)
        }
    }
}

/// So many polygons on meshes.
fn polygons_on(alloc: Global, due: u64, text: &str) -> Result<String, AllocError> {
    match entries::<PolygonOnMeshReader>(alloc, due, text) {
        Err(stop) => stopped(alloc, &stop),
        Ok((polygons, tokens)) => {
            let mut said = counted(alloc, tokens)?;
            for polygon in polygons.as_slice() {
                add_polygon_on(&mut said, polygon)?;
            }
            Ok(said)
        }
    }
}

/// So many meshes.
fn meshes(alloc: Global, due: u64, text: &str) -> Result<String, AllocError> {
    match entries::<MeshReader>(alloc, due, text) {
        Err(stop) => stopped(alloc, &stop),
        Ok((meshes, tokens)) => {
            let mut said = counted(alloc, tokens)?;
            for mesh in meshes.as_slice() {
                add_mesh(&mut said, mesh)?;
            }
            Ok(said)
        }
    }
}
