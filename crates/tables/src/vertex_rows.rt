// The vertex table: "Vertices stand in point order, numbered from 0, each with its least outgoing half-edge".
ghost use Rattle.std.specs.Prelude.{◌≡◌, ◌*◌, ◌≤◌, pos, length};
ghost use Rattle.seq.specs.Seq.{rows, padded, laid};
ghost use Rattle.paper.specs.Tables.{vertex_width};
ghost use Rattle.tables.specs.Rows.{vertex_of};

use limits::{POINT_WIDTH, VERTEX_WIDTH};
use seq::{store, wipe_from};

// Stores a row for each vertex: of the points, rows of X, Y, D and a spare cell, and of each vertex's least outgoing half-edge.
fn lay(vertices: &mut [i64], count: u16, points: &[i64], least: &[u16])
    requires { (vertex_width * count ≤ length vertices.old) × (vertex_width * count ≤ length points.now) × (count ≤ length least.now) }
    ensures { vertices.new ≡ laid count (vertex_of points.now least.now) vertices.old }
{
    let n = count as usize;
    for v in 0..n {
        let at = POINT_WIDTH * v;
        let x = points[at];
        let y = points[at + 1];
        let d = points[at + 2];
        let h = i64::from(least[v]);
        store(vertices, v, [x, y, d, h]);
    }
}

// The vertex table, zero past the count.
pub fn store_vertices(vertices: &mut [i64], count: u16, points: &[i64], least: &[u16])
    requires { (vertex_width * count ≤ length vertices.old) × (vertex_width * count ≤ length points.now) × (count ≤ length least.now) }
    ensures { vertices.new ≡ padded (pos 0) (length vertices.old) (rows (vertex_of points.now least.now) count) }
{
    lay(vertices, count, points, least);
    let n = count as usize;
    wipe_from(vertices, VERTEX_WIDTH * n, 0);
}
