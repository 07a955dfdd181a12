// The overlay file's writer: "3 (a count over its number or its table), 5 .., 21 or 11 (place 4), in that order, and then zeroes its buffer. Past the file's
// length the buffer is zero". It judges first, with no buffer in sight, and then stores the file or wipes the buffer.
ghost use Rattle.std.specs.Prelude.{◌≡◌, [], ◌∷◌, ◌≤◌, ltb, length};
ghost use Rattle.seq.specs.Seq.{padded};
ghost use Rattle.paper.specs.Limits.{maps, overlay_vertices, overlay_edges};
ghost use Rattle.paper.specs.Refusal.{given, first_at, first_of};
ghost use Rattle.paper.specs.Ovfile.{layouts, file_length, overlay_file};
ghost use Rattle.paper.specs.Writer.{bad_vertex, bad_edge, write_fault, write};
ghost use Rattle.map_file.specs.Verdict.{verdict};
ghost use Rattle.tables.specs.Values.{counts_of, lengths_by, tables_by};
ghost use Rattle.ovfile.specs.Values.{edge_tables, layout};
ghost use Rattle.ovfile_write.specs.Judged.{VerticesFit};
ghost use Rattle.ovfile_write.specs.Answers.{written_of};

use crate::bytes::{put_edges, put_faces, put_head, put_vertices};
use crate::edges::first_bad_edge;
use crate::vertices::first_bad_vertex;
use map_file::{Check, Refusal, given};
use ovfile::{NEWEST, over};
use seq::wipe_from;
use tables::{Counts, room_in};

// 5, 21 and 11, of counts that are not over their numbers, into a buffer of n bytes.
fn body(c: Counts, vertices: &[i64], halves: &[u16], sources: &[u32], n: usize) -> Check
    requires { (c.vertices ≤ overlay_vertices) × (c.edges ≤ overlay_edges) }
    ensures { verdict result ≡ first_of (first_at 5 (bad_vertex layout (counts_of c) (tables_by vertices.now halves.now [] [])) c.vertices ∷ first_at 21 (bad_edge maps (counts_of c) (edge_tables halves.now sources.now)) c.edges ∷ given 11 4 (ltb n (file_length layout (counts_of c))) ∷ []) }
{
    let v = first_bad_vertex(c, vertices, halves);
    let k = first_bad_edge(c, halves, sources);
    given(5, v, v < c.vertices)?;
    given(21, k, k < c.edges)?;
    given(11, 4, n < NEWEST.file_length(c))
}

// What the counts and tables are refused for: a face table of this length, and a buffer of n bytes.
fn judge(
    c: Counts,
    vertices: &[i64],
    halves: &[u16],
    sources: &[u32],
    faces: usize,
    n: usize,
) -> Check
    ensures { verdict result ≡ write_fault layout n (lengths_by (length vertices.now) (length halves.now) (length sources.now) faces) (counts_of c) (tables_by vertices.now halves.now sources.now []) }
{
    let room = room_in(vertices.len(), halves.len(), sources.len(), faces);
    given(3, 0, over(room, c))?;
    body(c, vertices, halves, sources, n)
}

// The file in the buffer. "Past the file's length the buffer is zero"
fn put_file(
    c: Counts,
    vertices: &[i64],
    halves: &[u16],
    sources: &[u32],
    faces: &[u16],
    buffer: &mut [u8],
)
    requires { VerticesFit vertices.now c.vertices × (file_length layout (counts_of c) ≤ length buffer.old) }
    ensures { buffer.new ≡ padded 0 (length buffer.old) (overlay_file (length layouts) layout (counts_of c) (tables_by vertices.now halves.now sources.now faces.now)) }
{
    put_head(c, buffer);
    put_vertices(c.vertices, vertices, buffer);
    put_edges(c, halves, sources, buffer);
    put_faces(c, faces, buffer);
    wipe_from(buffer, NEWEST.file_length(c), 0);
}

// Writes the overlay file of counts and tables into the buffer: the file's length, or "a refusal with number, map and place".
pub fn write(
    c: Counts,
    vertices: &[i64],
    halves: &[u16],
    sources: &[u32],
    faces: &[u16],
    buffer: &mut [u8],
) -> Result<usize, Refusal>
    ensures { written_of result buffer.new ≡ write (length buffer.old) (counts_of c) (tables_by vertices.now halves.now sources.now faces.now) }
{
    if let Err(r) = judge(c, vertices, halves, sources, faces.len(), buffer.len()) {
        buffer.fill(0);
        return Err(r);
    }
    put_file(c, vertices, halves, sources, faces, buffer);
    Ok(NEWEST.file_length(c))
}
