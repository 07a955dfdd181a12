// The mended file: the head, a loop over the vertices, a loop over the edges, each storing what is kept.
ghost use Rattle.std.specs.Prelude.{◌≡◌, [], ◌∷◌, ◌++◌, ◌+◌, ◌*◌, ◌≤◌, length};
ghost use Rattle.std.proofs.lemmas.List.Edits.{sets};
ghost use Rattle.seq.specs.Seq.{count, rows, gather, padded};
ghost use Rattle.paper.specs.Limits.{map_head};
ghost use Rattle.paper.specs.Bytes.{ascii, le};
ghost use Rattle.paper.specs.Map.{vertex_place};
ghost use Rattle.paper.specs.Mend.{corner_bytes};
ghost use Rattle.plane.specs.Bounds.{Corner};
ghost use Rattle.map_check.specs.Parts.{corner_in, Corners};
ghost use Rattle.mend.specs.Steps.{step_is};
ghost use Rattle.mend.specs.Stored.{point_in, row_in, the_edge_in, file_in, Counted};

use crate::laid::Tables;
use crate::merge::{from_now, to_now};
use crate::steps::is_step;
use limits::MAP_HEAD;
use map_file::{map_length, vertex_place};
use ovfile::{at_or, put, put_fields, twos, vertex_cell};
use seq::wipe_from;

// "Mark `ZMP`"
fn put_mark(out: &mut [u8])
    requires { 3 ≤ length out.old }
    ensures { out.new ≡ sets out.old 0 (ascii "ZMP") }
{
    out[0] = b'Z';
    out[1] = b'M';
    out[2] = b'P';
}

// "version (1), vertex count V, edge count E"
fn put_head(vertices: u16, edges: u16, out: &mut [u8])
    requires { map_head ≤ length out.old }
    ensures { out.new ≡ sets out.old 0 (ascii "ZMP" ++ gather (le 2) (1 ∷ vertices ∷ edges ∷ [])) }
{
    put_mark(out);
    let fields = [1, vertices as u32, edges as u32];
    put_fields(out, 3, &fields);
}

// The corner of vertex v: "x, y as signed 16-bit".
fn put_corner(points: &[i64], v: u16, out: &mut [u8], at: usize)
    requires { Corner (corner_in points.now v) × (at + 4 ≤ length out.old) }
    ensures { out.new ≡ sets out.old at (corner_bytes (corner_in points.now v)) }
{
    let x = twos(vertex_cell(points, v, 0), 2);
    let y = twos(vertex_cell(points, v, 1), 2);
    put(out, at, 2, x);
    put(out, at + 2, 2, y);
}

// "No corner that stays moves"
fn put_corners(points: &[i64], steps: &[u16], n: u16, out: &mut [u8])
    requires { Corners points.now n × (n ≤ length steps.now) × (map_head + 4 * count (step_is steps.now 0) n ≤ length out.old) }
    ensures { out.new ≡ sets out.old map_head (rows (point_in points.now steps.now) n) }
{
    let mut at = MAP_HEAD;
    for v in 0..n {
        if is_step(steps, 0, v) {
            put_corner(points, v, out, at);
            at += 4;
        }
    }
}

// Edge k: the new numbers of its two ends, and its two labels.
fn put_edge<'a>(t: Tables<'a>, k: u16, out: &mut [u8], at: usize)
    requires { at + 8 ≤ length out.old }
    ensures { out.new ≡ sets out.old at (gather (le 2) (row_in t.entry.labels.now t.entry.ends.now t.entry.numbers.now k)) }
{
    let a = from_now(t.ends, k) as usize;
    let b = to_now(t.ends, k) as usize;
    let from = at_or(t.numbers, a, 0) as u32;
    let to = at_or(t.numbers, b, 0) as u32;
    let left = at_or(t.labels, 2 * k as usize, 0) as u32;
    let right = at_or(t.labels, 2 * k as usize + 1, 0) as u32;
    let fields = [from, to, left, right];
    put_fields(out, at, &fields);
}

// "and no kept label changes"
fn put_edges<'a>(t: Tables<'a>, out: &mut [u8], start: usize)
    requires { (t.e ≤ length t.pieces.now) × (start + 8 * count (step_is t.pieces.now 0) t.e ≤ length out.old) }
    ensures { out.new ≡ sets out.old start (rows (the_edge_in t.entry.labels.now t.entry.ends.now t.entry.numbers.now t.entry.pieces.now) t.entry.e) }
{
    let mut at = start;
    for k in 0..t.e {
        if is_step(t.pieces, 0, k) {
            put_edge(t, k, out, at);
            at += 8;
        }
    }
}

// The whole file, and zeros past it.
pub fn put_file<'a>(t: Tables<'a>, out: &mut [u8])
    requires { Corners t.points.now t.n × Counted t.corners.now t.pieces.now t.n t.e t.vertices t.edges × (vertex_place t.vertices + 8 * t.edges ≤ length out.old) }
    ensures { out.new ≡ padded 0 (length out.old) (file_in t.entry.points.now t.entry.labels.now t.entry.ends.now t.entry.numbers.now t.entry.corners.now t.entry.pieces.now t.entry.n t.entry.e) }
{
    put_head(t.vertices, t.edges, out);
    put_corners(t.points, t.corners, t.n, out);
    put_edges(t, out, vertex_place(t.vertices));
    wipe_from(out, map_length(t.vertices, t.edges), 0);
}
