// The cells of flat tables, by row and place in the row. A cell past the end counts as 0, as in the definitions.
ghost use Rattle.std.specs.Prelude.{◌≡◌, pos, get_or};
ghost use Rattle.seq.specs.Seq.{cell};
ghost use Rattle.paper.specs.Limits.{maps};
ghost use Rattle.paper.specs.Tables.{vertex_width, half_width, face_width};

use limits::{FACE_WIDTH, HALF_WIDTH, SOURCE_WIDTH, VERTEX_WIDTH};

// Cell i, or what stands for one past the end.
pub fn at_or<T: Copy>(t: &[T], i: usize, none: T) -> T
    ensures { result ≡ get_or t.now i none }
{
    if i < t.len() { t[i] } else { none }
}

// X, Y, D, least outgoing half-edge
pub fn vertex_cell(vertices: &[i64], v: u16, j: u16) -> i64
    ensures { result ≡ cell (pos 0) vertex_width vertices.now v j }
{
    at_or(vertices, VERTEX_WIDTH * v as usize + j as usize, 0)
}

// origin, twin, follower, predecessor, face
pub fn half_cell(halves: &[u16], h: u32, j: u16) -> u16
    ensures { result ≡ cell 0 half_width halves.now h j }
{
    at_or(halves, HALF_WIDTH * h as usize + j as usize, 0)
}

// an edge number in map i + 1, or 0
pub fn source_cell(sources: &[u32], k: u16, i: u16) -> u32
    ensures { result ≡ cell 0 maps sources.now k i }
{
    at_or(sources, SOURCE_WIDTH * k as usize + i as usize, 0)
}

// labels, least half-edge, holes
pub fn face_cell(faces: &[u16], f: u16, j: u16) -> u16
    ensures { result ≡ cell 0 (face_width maps) faces.now f j }
{
    at_or(faces, FACE_WIDTH * f as usize + j as usize, 0)
}
