//! The lines of a record's head.
ghost use Rattle.brep_tokens.specs.Written.{line_text, lines_text};
ghost use Rattle.std.specs.Prelude.{◌≡◌, ◌++◌, All, length};
ghost use Rattle.tshape_data.specs.Lines.{mesh_lines};
ghost use Rattle.tshape_data.specs.Parts.{edge_flags};
ghost use Rattle.tshape_data.specs.Locations.{data_locations};
ghost use Rattle.tshape_data.specs.declared.head.Payload.TheVariants.{Edge, Face, Vertex};
ghost use Rattle.written_heads.specs.Named.{AreInSection};
ghost use Rattle.written_heads.specs.Versions.{CanBeWrittenIn};
ghost use Rattle.written_heads.specs.Words.{IsWritableEdge, IsWritablePayload, IsWritablePoint, IsWritten};
ghost use Rattle.written_heads.specs.Words.{vertex_texts, written_head, written_payload};
ghost use Rattle.written_locations.specs.Added.{IsAdded, IsNumbering};

use crate::edges::push_edge_reps;
use crate::fields::{flag_digit, flag_digits, push_decimal, push_location, push_number, push_text};
use crate::points::push_points;
use brep_tokens::Decimals;
use byte_sink::{TakesBytes, push_byte, push_line};
use orientation::kind_name;
use tshape_data::{EdgeData, FaceData, Flags, Head, Payload, VertexData};
use written_locations::WrittenLocations;

/// The lines of a vertex's tolerance and of its coordinates.
fn push_vertex_texts<B: TakesBytes>(text: &mut B, texts: &Decimals)
    requires { length texts.now ≡ 4 }
    ensures { B.gives text.old (vertex_texts texts.now) text.new }
{
    push_decimal(text, texts, 0, b'\n');
    push_decimal(text, texts, 1, b' ');
    push_decimal(text, texts, 2, b' ');
    push_decimal(text, texts, 3, b'\n');
}

/// The lines of a vertex's data.
fn push_vertex<B: TakesBytes>(text: &mut B, vertex: &VertexData, locations: &WrittenLocations<'_>)
    requires numbering { IsNumbering locations.now }
    requires texts { length vertex.now.texts ≡ 4 }
    requires points { All (IsWritablePoint locations.now) vertex.now.points }
    ensures { B.gives text.old (written_payload locations.now 1 (Vertex vertex.now)) text.new }
{
    push_vertex_texts(text, &vertex.texts);
    push_points(text, vertex.points.as_slice(), locations);
    text.push(b"0 0\n");
}

/// The line of an edge's tolerance and flags.
fn push_edge_flags<B: TakesBytes>(text: &mut B, edge: &EdgeData)
    requires { length edge.now.tolerance ≡ 1 }
    ensures { B.gives text.old (line_text (edge.now.tolerance ++ edge_flags edge.now)) text.new }
{
    push_text(text, &edge.tolerance, 0);
    text.push(&[
        b' ',
        flag_digit(edge.same_parameter),
        b' ',
        flag_digit(edge.same_range),
        b' ',
        flag_digit(edge.degenerated),
        b'\n',
    ])
}

/// The lines of an edge's data.
fn push_edge<B: TakesBytes>(
    text: &mut B,
    edge: &EdgeData,
    version: u8,
    locations: &WrittenLocations<'_>,
)
    requires numbering { IsNumbering locations.now }
    requires tolerance { length edge.now.tolerance ≡ 1 }
    requires reps { All (IsWritableEdge locations.now version) edge.now.reps }
    ensures { B.gives text.old (written_payload locations.now version (Edge edge.now)) text.new }
{
    push_edge_flags(text, edge);
    push_edge_reps(text, edge.reps.as_slice(), version, locations);
    text.push(b"0\n");
}

/// The line of a face's triangulation, if it has one.
fn push_mesh<B: TakesBytes>(text: &mut B, mesh: Option<u32>)
    ensures { B.gives text.old (lines_text (mesh_lines mesh)) text.new }
{
    match mesh {
        None => {}
        Some(mesh) => {
            push_byte(text, b'2');
            push_number(text, mesh as usize);
            push_byte(text, b'\n')
        }
    }
}

/// The lines of a face's data.
fn push_face<B: TakesBytes>(text: &mut B, face: &FaceData, locations: &WrittenLocations<'_>)
    requires numbering { IsNumbering locations.now }
    requires tolerance { length face.now.tolerance ≡ 1 }
    requires location { IsWritten locations.now face.now.location }
    ensures { B.gives text.old (written_payload locations.now 1 (Face face.now)) text.new }
{
    push_byte(text, flag_digit(face.natural));
    push_byte(text, b' ');
    push_text(text, &face.tolerance, 0);
    push_number(text, face.surface as usize);
    push_location(text, face.location, locations);
    push_byte(text, b'\n');
    push_mesh(text, face.mesh)
}

/// The lines of a record's data.
fn push_payload<B: TakesBytes>(
    text: &mut B,
    payload: &Payload,
    version: u8,
    locations: &WrittenLocations<'_>,
)
    requires numbering { IsNumbering locations.now }
    requires writable { IsWritablePayload locations.now version payload.now }
    ensures { B.gives text.old (written_payload locations.now version payload.now) text.new }
{
    match payload {
        Payload::Vertex(vertex) => push_vertex(text, vertex, locations),
        Payload::Edge(edge) => push_edge(text, edge, version, locations),
        Payload::Face(face) => push_face(text, face, locations),
        Payload::Nothing => {}
    }
}

/// Hands in the lines of a record's head in a version: its kind, its data, an empty line and its flags. In version 1 the
/// UV points of a head of version 2 are left out. The locations in its data have the numbers of the words that were
/// added.
pub fn push_head<B: TakesBytes>(
    text: &mut B,
    head: &Head,
    version: u8,
    locations: &WrittenLocations<'_>,
)
    requires sound { CanBeWrittenIn version head.now }
    requires numbering { IsNumbering locations.now }
    requires within { AreInSection locations.now (data_locations version head.now.payload) }
    requires added { All (IsAdded locations.now) (data_locations version head.now.payload) }
    ensures { B.gives text.old (written_head locations.now version head.now) text.new }
{
    push_head_as(text, head, &head.flags, version, locations);
}

/// Hands in the same lines, but for the flags, which are these.
pub fn push_head_as<B: TakesBytes>(
    text: &mut B,
    head: &Head,
    flags: &Flags,
    version: u8,
    locations: &WrittenLocations<'_>,
)
    requires sound { CanBeWrittenIn version head.now }
    requires numbering { IsNumbering locations.now }
    requires within { AreInSection locations.now (data_locations version head.now.payload) }
    requires added { All (IsAdded locations.now) (data_locations version head.now.payload) }
    ensures { B.gives text.old
        (written_head locations.now version (record head.now { flags = flags.now }))
        text.new }
{
    push_line(text, kind_name(head.kind));
    push_payload(text, &head.payload, version, locations);
    push_byte(text, b'\n');
    push_line(text, &flag_digits(flags));
}
