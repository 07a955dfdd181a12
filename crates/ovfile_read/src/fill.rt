// The reader's tables: "The reader gives back every stored field as it stands and works out origin, twin, predecessor (the inverse of the follower) and each
// vertex's least outgoing half-edge (65,535 if none)". Each table by a function of its own, from the file alone; past the counts it is zero.
ghost use Rattle.std.specs.Prelude.{◌≡◌, ◌*◌, ◌≤◌, pos, length};
ghost use Rattle.std.proofs.lemmas.List.Edits.{sets};
ghost use Rattle.seq.specs.Seq.{rows, padded, table};
ghost use Rattle.paper.specs.Limits.{maps, denominator_bytes};
ghost use Rattle.paper.specs.Bytes.{number};
ghost use Rattle.paper.specs.Tables.{vertex_width, half_width, face_width};
ghost use Rattle.paper.specs.Reader.{counts_in, stored_source, half_read, face_read, tables_in};
ghost use Rattle.ovfile.specs.Values.{layout_from};
ghost use Rattle.ovfile.specs.Firsts.{FirstPlaces};
ghost use Rattle.ovfile_read.specs.Filled.{stored_field, followers_in, vertex_by, Predecessors, LeastStarts};

use crate::stored::Stored;
use limits::{
    ABSENT, DENOMINATOR_BYTES, EDGE_WIDTH, FACE_WIDTH, HALVES, SOURCE_WIDTH, VERTEX_WIDTH, VERTICES,
};
use ovfile::{at_or, number_at, signed_at, store, twin};
use seq::wipe_from;

// In each cell of `out` the first of n half-edges that has its number as field j of its edge, or as the one after it. From the last half-edge down.
fn first_stored(stored: &Stored, j: u16, n: u32, out: &mut [u16])
    requires { n ≤ 65536 }
    ensures { FirstPlaces (stored_field (layout_from stored.now.layout) stored.now.file.now j) n out.old out.new }
{
    for h in (0..n).rev() {
        store(
            out,
            stored.edge_field(h / 2, j as u32 + h % 2) as usize,
            h as u16,
        );
    }
}

// The predecessor of each half-edge.
fn predecessors(stored: &Stored) -> [u16; HALVES]
    ensures { Predecessors (layout_from stored.now.layout) stored.now.file.now result }
{
    let n = 2 * stored.counts.edges as u32;
    let mut first = [n as u16; HALVES];
    first_stored(stored, 2 + stored.layout.maps as u16, n, &mut first);
    first
}

fn lay_halves(stored: &Stored, first: &[u16], halves: &mut [u16])
    requires { Predecessors (layout_from stored.now.layout) stored.now.file.now first.now × (half_width * (2 * (counts_in stored.now.file.now).edges) ≤ length halves.old) }
    ensures { halves.new ≡ sets halves.old 0 (rows (half_read (layout_from stored.now.layout) stored.now.file.now (followers_in (layout_from stored.now.layout) stored.now.file.now)) (2 * (counts_in stored.now.file.now).edges)) }
{
    let n = 2 * stored.counts.edges as u32;
    for h in 0..n {
        seq::store(
            halves,
            h as usize,
            [
                stored.origin(h),
                twin(h) as u16,
                stored.follower(h),
                at_or(first, h as usize, 0),
                stored.face(h),
            ],
        );
    }
}

// The half-edge table of a file.
pub fn fill_halves(stored: &Stored, halves: &mut [u16])
    requires { half_width * (2 * (counts_in stored.now.file.now).edges) ≤ length halves.old }
    ensures { halves.new ≡ padded 0 (length halves.old) (tables_in maps (layout_from stored.now.layout) stored.now.file.now).halves }
{
    let first = predecessors(stored);
    lay_halves(stored, &first, halves);
    wipe_from(halves, EDGE_WIDTH * stored.counts.edges as usize, 0);
}

// The least outgoing half-edge of each vertex.
fn least_starts(stored: &Stored) -> [u16; VERTICES]
    ensures { LeastStarts (layout_from stored.now.layout) stored.now.file.now result }
{
    let n = 2 * stored.counts.edges as u32;
    let mut least = [ABSENT; VERTICES];
    first_stored(stored, 0, n, &mut least);
    least
}

// D, in four bytes.
fn denominator(file: &[u8], at: usize) -> i64
    ensures { result ≡ pos (number denominator_bytes file.now at) }
{
    number_at(file, at, DENOMINATOR_BYTES) as i64
}

fn lay_vertices(stored: &Stored, least: &[u16], vertices: &mut [i64])
    requires { vertex_width * (counts_in stored.now.file.now).vertices ≤ length vertices.old }
    ensures { vertices.new ≡ sets vertices.old 0 (rows (vertex_by (layout_from stored.now.layout) stored.now.file.now least.now) (counts_in stored.now.file.now).vertices) }
{
    let n = stored.counts.vertices;
    for v in 0..n {
        let w = stored.layout.coordinate;
        let p = stored.layout.vertex_place(v);
        let x = signed_at(stored.file, p, w);
        let y = signed_at(stored.file, p + w, w);
        let d = denominator(stored.file, p + 2 * w);
        seq::store(
            vertices,
            v as usize,
            [x, y, d, i64::from(at_or(least, v as usize, 0))],
        );
    }
}

// The vertex table of a file.
pub fn fill_vertices(stored: &Stored, vertices: &mut [i64])
    requires { vertex_width * (counts_in stored.now.file.now).vertices ≤ length vertices.old }
    ensures { vertices.new ≡ padded (pos 0) (length vertices.old) (tables_in maps (layout_from stored.now.layout) stored.now.file.now).vertices }
{
    let least = least_starts(stored);
    lay_vertices(stored, &least, vertices);
    wipe_from(vertices, VERTEX_WIDTH * stored.counts.vertices as usize, 0);
}

fn lay_sources(stored: &Stored, sources: &mut [u32])
    requires { maps * (counts_in stored.now.file.now).edges ≤ length sources.old }
    ensures { sources.new ≡ sets sources.old 0 (rows (λ k. table (stored_source (layout_from stored.now.layout) stored.now.file.now k) maps) (counts_in stored.now.file.now).edges) }
{
    let n = stored.counts.edges as u32;
    for k in 0..n {
        seq::store(
            sources,
            k as usize,
            [
                stored.source(k, 0) as u32,
                stored.source(k, 1) as u32,
                stored.source(k, 2) as u32,
            ],
        );
    }
}

// The source table of a file.
pub fn fill_sources(stored: &Stored, sources: &mut [u32])
    requires { maps * (counts_in stored.now.file.now).edges ≤ length sources.old }
    ensures { sources.new ≡ padded 0 (length sources.old) (tables_in maps (layout_from stored.now.layout) stored.now.file.now).sources }
{
    lay_sources(stored, sources);
    wipe_from(sources, SOURCE_WIDTH * stored.counts.edges as usize, 0);
}

fn lay_faces(stored: &Stored, faces: &mut [u16])
    requires { face_width maps * (counts_in stored.now.file.now).faces ≤ length faces.old }
    ensures { faces.new ≡ sets faces.old 0 (rows (face_read maps (layout_from stored.now.layout) stored.now.file.now) (counts_in stored.now.file.now).faces) }
{
    let n = stored.counts.faces as u32;
    for f in 0..n {
        seq::store(
            faces,
            f as usize,
            [
                stored.label(f, 0),
                stored.label(f, 1),
                stored.label(f, 2),
                stored.face_field(f, stored.layout.maps as u32),
                stored.face_field(f, 1 + stored.layout.maps as u32),
            ],
        );
    }
}

// The face table of a file.
pub fn fill_faces(stored: &Stored, faces: &mut [u16])
    requires { face_width maps * (counts_in stored.now.file.now).faces ≤ length faces.old }
    ensures { faces.new ≡ padded 0 (length faces.old) (tables_in maps (layout_from stored.now.layout) stored.now.file.now).faces }
{
    lay_faces(stored, faces);
    wipe_from(faces, FACE_WIDTH * stored.counts.faces as usize, 0);
}
