// Refusal 5: "a vertex's X, Y or D does not fit its bytes", or a vertex "whose outgoing entry is not the least half-edge with that origin (65,535 if none)".
ghost use Rattle.std.specs.Prelude.{◌≡◌, [], ◌*◌, ◌<◌, ◌≤◌};
ghost use Rattle.seq.specs.Seq.{least};
ghost use Rattle.paper.specs.Limits.{overlay_vertices, overlay_edges};
ghost use Rattle.paper.specs.Bytes.{the_fits_signed, fits_unsigned};
ghost use Rattle.paper.specs.Writer.{bad_vertex};
ghost use Rattle.tables.specs.Values.{counts_of, tables_by};
ghost use Rattle.ovfile.specs.Values.{layout};
ghost use Rattle.ovfile_write.specs.Judged.{bad_vertex_by, LeastStarts};

use limits::{ABSENT, COORDINATE_BYTES, DENOMINATOR_BYTES, VERTICES};
use ovfile::{at_or, first_places, numbers_in, vertex_cell};
use tables::Counts;

// A number fits w bytes, two's complement.
fn fits_signed(z: i64, width: usize) -> bool
    requires { width < 8 }
    ensures { result ≡ the_fits_signed width z }
{
    let half = numbers_in(width) / 2;
    if z < 0 {
        z.unsigned_abs() <= half
    } else {
        z.unsigned_abs() < half
    }
}

// A number fits w bytes, unsigned.
fn fits_unsigned(z: i64, width: usize) -> bool
    requires { width < 8 }
    ensures { result ≡ fits_unsigned width z }
{
    0 <= z && z.unsigned_abs() < numbers_in(width)
}

// Whether vertex v is refused, by a table of least outgoing half-edges.
fn bad_vertex(vertices: &[i64], starts: &[u16], v: u16) -> bool
    ensures { result ≡ bad_vertex_by vertices.now starts.now v }
{
    let least = i64::from(at_or(starts, v as usize, 0));
    !fits_signed(vertex_cell(vertices, v, 0), COORDINATE_BYTES)
        || !fits_signed(vertex_cell(vertices, v, 1), COORDINATE_BYTES)
        || !fits_unsigned(vertex_cell(vertices, v, 2), DENOMINATOR_BYTES)
        || vertex_cell(vertices, v, 3) != least
}

// The least vertex that is refused, or the number of vertices.
fn first_bad_vertex_by(n: u16, vertices: &[i64], starts: &[u16]) -> u16
    ensures { result ≡ least (bad_vertex_by vertices.now starts.now) n }
{
    for v in 0..n {
        if bad_vertex(vertices, starts, v) {
            return v;
        }
    }
    n
}

// The least outgoing half-edge of each vertex.
fn least_starts(edges: u16, halves: &[u16]) -> [u16; VERTICES]
    requires { edges ≤ overlay_edges }
    ensures { LeastStarts halves.now (2 * edges) result }
{
    let mut starts = [ABSENT; VERTICES];
    first_places(halves, 0, 2 * edges as u32, &mut starts);
    starts
}

pub fn first_bad_vertex(c: Counts, vertices: &[i64], halves: &[u16]) -> u16
    requires { (c.vertices ≤ overlay_vertices) × (c.edges ≤ overlay_edges) }
    ensures { result ≡ least (bad_vertex layout (counts_of c) (tables_by vertices.now halves.now [] [])) c.vertices }
{
    let starts = least_starts(c.edges, halves);
    first_bad_vertex_by(c.vertices, vertices, &starts)
}
