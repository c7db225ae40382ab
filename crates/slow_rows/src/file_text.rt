//! The text of a file by its root use and its records from number 1 on.
use std::alloc::{AllocError, Global};
use tree_texts::{Missed, cut, cut_if, said, without_sign};

/// What stands before the records: three datums, then the location 4, which is the datum 1 under the datum 2, and the
/// location 5, the inverse of the datum 1.
const HEAD: &str = "CASCADE Topology V1, (c) Matra-Datavision\n\
Locations 5\n\
1 1 0 0 5 0 1 0 0 0 0 1 0\n\
1 1 0 0 0 0 1 0 7 0 0 1 0\n\
1 1 0 0 0 0 1 0 0 0 0 1 9\n\
2 1 1 2 1 0\n\
2 1 -1 0\n\
Curve2ds 0\n\
Curves 0\n\
Polygon3D 0\n\
PolygonOnTriangulations 0\n\
Surfaces 0\n\
Triangulations 0\n";

/// What stands between a record's kind and its uses: its data and its flags.
fn data_of(kind: &str) -> &'static str {
    match kind {
        "Ve" => "1e-07\n0 0 0\n0 0\n\n0101101\n",
        "Ed" => "1e-07 1 1 0\n0\n\n0101000\n",
        "Fa" => "0 1e-07 0 0\n\n0101000\n",
        _ => "\n0101000\n",
    }
}

/// Appends a use such as `-2@3`: the record 2, reversed, at the location 3. Without a sign it is forward, and without a
/// location at 0.
fn push_use(text: &mut String, one: &str) -> Result<(), AllocError> {
    let (name, place) = cut_if(one, "@");
    if without_sign(name.as_bytes()).0.is_none() {
        text.push_str("+")?;
    }
    text.push_str(name)?;
    text.push_str(" ")?;
    text.push_str(place.unwrap_or("0"))?;
    text.push_str(" ")
}

/// The lines of a record, such as `Co 2 -2@3`.
fn record_text(alloc: Global, record: &str) -> Result<String, Missed> {
    let (kind, uses) = cut_if(record, " ");
    let mut text = said(alloc, kind)?;
    text.push_str("\n")?;
    text.push_str(data_of(kind))?;
    if let Some(uses) = uses {
        for one in uses.split(" ") {
            push_use(&mut text, one)?;
        }
    }
    text.push_str("*\n")?;
    Ok(text)
}

/// The text of a file `ROOT: RECORD ; RECORD ; ..`. In a file the record with the number 1 stands last.
pub(crate) fn file_text(alloc: Global, row: &str) -> Result<String, Missed> {
    let (root, given) = cut(row, ": ")?;
    let mut records = Vec::new(alloc);
    for record in given.split(" ; ") {
        records.push(record_text(alloc, record)?)?;
    }
    records.reverse();
    let mut text = said(alloc, HEAD)?;
    let count = records.len();
    text.push_str(format!(in alloc; "TShapes {count}\n")?.as_str())?;
    for record in &records {
        text.push_str(record.as_str())?;
    }
    push_use(&mut text, root)?;
    text.push_str("\n")?;
    Ok(text)
}
