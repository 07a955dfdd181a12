// The bytes of the file, each part stored in the buffer at its place: "mark `ZOV`, 16-bit version .., three counts; vertices ..; edges ..; faces ..".
ghost use Rattle.std.specs.Prelude.{◌≡◌, [], ◌++◌, ◌+◌, ◌*◌, ◌≤◌, length};
ghost use Rattle.std.proofs.lemmas.List.Edits.{sets};
ghost use Rattle.seq.specs.Seq.{rows, gather};
ghost use Rattle.paper.specs.Limits.{overlay_head, maps};
ghost use Rattle.paper.specs.Bytes.{ascii, le};
ghost use Rattle.paper.specs.Ovfile.{vertex_size, edge_size, face_size, edges_at, faces_at, vertex_bytes, edge_fields, face_fields};
ghost use Rattle.tables.specs.Values.{counts_of, tables_by};
ghost use Rattle.ovfile.specs.Values.{edge_tables, layout};
ghost use Rattle.ovfile_write.specs.Judged.{head_fields, VertexFits, VerticesFit};

use limits::{COORDINATE_BYTES, DENOMINATOR_BYTES, EDGE_SIZE, FACE_SIZE, VERSION};
use ovfile::{NEWEST, face_cell, half_cell, put, put_fields, source_cell, twos, vertex_cell};
use tables::Counts;

// "mark `ZOV`"
fn put_mark(buffer: &mut [u8])
    requires { 3 ≤ length buffer.old }
    ensures { buffer.new ≡ sets buffer.old 0 (ascii "ZOV") }
{
    buffer[..3].copy_from_slice(b"ZOV");
}

// "mark `ZOV`, 16-bit version .., three counts": the newest
pub fn put_head(c: Counts, buffer: &mut [u8])
    requires { overlay_head ≤ length buffer.old }
    ensures { buffer.new ≡ sets buffer.old 0 (ascii "ZOV" ++ gather (le 2) (head_fields (counts_of c))) }
{
    put_mark(buffer);
    let fields = [
        VERSION as u32,
        c.vertices as u32,
        c.edges as u32,
        c.faces as u32,
    ];
    put_fields(buffer, 3, &fields);
}

// X and Y in "six bytes each" (02, Ask 7), two's complement, "and D in four (unsigned)"
fn put_vertex(vertices: &[i64], v: u16, buffer: &mut [u8], at: usize)
    requires { VertexFits vertices.now v × (at + vertex_size layout ≤ length buffer.old) }
    ensures { buffer.new ≡ sets buffer.old at (vertex_bytes layout (tables_by vertices.now [] [] []) v) }
{
    let x = twos(vertex_cell(vertices, v, 0), COORDINATE_BYTES);
    let y = twos(vertex_cell(vertices, v, 1), COORDINATE_BYTES);
    let d = twos(vertex_cell(vertices, v, 2), DENOMINATOR_BYTES);
    put(buffer, at, COORDINATE_BYTES, x);
    put(buffer, at + COORDINATE_BYTES, COORDINATE_BYTES, y);
    put(buffer, at + 2 * COORDINATE_BYTES, DENOMINATOR_BYTES, d);
}

pub fn put_vertices(n: u16, vertices: &[i64], buffer: &mut [u8])
    requires { VerticesFit vertices.now n × (overlay_head + vertex_size layout * n ≤ length buffer.old) }
    ensures { buffer.new ≡ sets buffer.old overlay_head (rows (vertex_bytes layout (tables_by vertices.now [] [] [])) n) }
{
    for v in 0..n {
        put_vertex(vertices, v, buffer, NEWEST.vertex_place(v));
    }
}

// "edges as eight 16-bit numbers", and "a third source after the second" (02, Ask 13)
fn put_edge(halves: &[u16], sources: &[u32], k: u16, buffer: &mut [u8], at: usize)
    requires { at + edge_size layout ≤ length buffer.old }
    ensures { buffer.new ≡ sets buffer.old at (gather (le 2) (edge_fields maps (edge_tables halves.now sources.now) k)) }
{
    let a = 2 * k as u32;
    let b = a + 1;
    let lower = half_cell(halves, a, 0) as u32;
    let upper = half_cell(halves, b, 0) as u32;
    let first = source_cell(sources, k, 0);
    let second = source_cell(sources, k, 1);
    let third = source_cell(sources, k, 2);
    let onward = half_cell(halves, a, 2) as u32;
    let back = half_cell(halves, b, 2) as u32;
    let left = half_cell(halves, a, 4) as u32;
    let right = half_cell(halves, b, 4) as u32;
    let fields = [
        lower, upper, first, second, third, onward, back, left, right,
    ];
    put_fields(buffer, at, &fields);
}

pub fn put_edges(c: Counts, halves: &[u16], sources: &[u32], buffer: &mut [u8])
    requires { faces_at layout (counts_of c) ≤ length buffer.old }
    ensures { buffer.new ≡ sets buffer.old (edges_at layout (counts_of c)) (rows (λ k. gather (le 2) (edge_fields maps (edge_tables halves.now sources.now) k)) c.edges) }
{
    let n = c.edges;
    let start = NEWEST.edges_at(c);
    for k in 0..n {
        put_edge(halves, sources, k, buffer, start + EDGE_SIZE * k as usize);
    }
}

// "faces as four (labels, least half-edge, holes)", and "a third label after the second" (02, Ask 13)
fn put_face(faces: &[u16], f: u16, buffer: &mut [u8], at: usize)
    requires { at + face_size layout ≤ length buffer.old }
    ensures { buffer.new ≡ sets buffer.old at (gather (le 2) (face_fields maps (tables_by [] [] [] faces.now) f)) }
{
    let first = face_cell(faces, f, 0) as u32;
    let second = face_cell(faces, f, 1) as u32;
    let third = face_cell(faces, f, 2) as u32;
    let outer = face_cell(faces, f, 3) as u32;
    let holes = face_cell(faces, f, 4) as u32;
    let fields = [first, second, third, outer, holes];
    put_fields(buffer, at, &fields);
}

pub fn put_faces(c: Counts, faces: &[u16], buffer: &mut [u8])
    requires { faces_at layout (counts_of c) + face_size layout * c.faces ≤ length buffer.old }
    ensures { buffer.new ≡ sets buffer.old (faces_at layout (counts_of c)) (rows (λ f. gather (le 2) (face_fields maps (tables_by [] [] [] faces.now) f)) c.faces) }
{
    let n = c.faces;
    let start = NEWEST.faces_at(c);
    for f in 0..n {
        put_face(faces, f, buffer, start + FACE_SIZE * f as usize);
    }
}
