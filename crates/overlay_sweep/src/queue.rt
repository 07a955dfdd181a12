// The queue: points in falling order, each once, so that the next stop of the line is the last row, and a crossing that is found moves only the points before it. The spare cell
// of a row has where the line is to look for the point in its status, which is a guess.
ghost use Rattle.std.specs.Prelude.{◌≡◌, ◌+◌, ◌*◌, ◌≤◌, ◌<◌, length};
ghost use Rattle.seq.specs.Halves.{Lasts, Halving};
ghost use Rattle.plane.specs.Bounds.{Near};
ghost use Rattle.plane.specs.Values.{pt_of};
ghost use Rattle.graph.specs.Flat.{Points};
ghost use Rattle.overlay_cut.specs.Rooms.{vertex_rows};
ghost use Rattle.overlay_sweep.specs.Queue.{the_before_at, Place, Stands, queue_of, queued};

use crate::earlier::earlier;
use graph::point_at;
use limits::{POINT_WIDTH, VERTEX_ROWS};
use plane::Point;
use seq::{lift, store};

// The first of n rows that comes before p, or n: by halves. It is none below `from`, and none after `to`.
fn place_in(points: &[i64], n: usize, from: usize, to: usize, p: Point) -> usize
    requires fact_1 { Points points.now n }
    requires fact_2 { Near (pt_of p) }
    requires fact_3 { Lasts (the_before_at points.now (pt_of p)) n }
    requires fact_4 { Halving (the_before_at points.now (pt_of p)) n from to }
    ensures { Place points.now (pt_of p) n result }
{
    // Not `partition_point`: a point is a row of four cells, and a slice of cells has no items that are points.
    let mut a = from;
    let mut b = to;
    while a < b {
        let h = a + (b - a) / 2;
        if earlier(point_at(points, h), p) {
            b = h;
        } else {
            a = h + 1;
        }
    }
    a
}

// The same, looked for from the last row on in steps that double: most crossings are near.
fn place_near(points: &[i64], n: usize, p: Point) -> usize
    requires fact_1 { Points points.now n × (n < vertex_rows) }
    requires fact_2 { Near (pt_of p) }
    requires fact_3 { Lasts (the_before_at points.now (pt_of p)) n }
    ensures { Place points.now (pt_of p) n result }
{
    // No `for`: the steps double.
    let mut b = n;
    let mut s = 1;
    while s <= b {
        if earlier(point_at(points, b - s), p) {
            b -= s;
            s = 2 * s;
        } else {
            return place_in(points, n, b - s + 1, b, p);
        }
    }
    place_in(points, n, 0, b, p)
}

// Whether p stands in the row below a, its place.
fn stands_at(points: &[i64], n: usize, a: usize, p: Point) -> bool
    requires fact_1 { Points points.now n × (a ≤ n) }
    requires fact_2 { Near (pt_of p) }
    ensures { Stands points.now a (pt_of p) result }
{
    0 < a && !earlier(p, point_at(points, a - 1))
}

// Puts p at its place a among n rows where it is not there yet. Answers how many rows there are.
fn put_at(points: &mut [i64], n: usize, a: usize, p: Point, guess: i64) -> usize
    requires fact_1 { Points points.old n × (n < vertex_rows) × (4 * vertex_rows ≤ length points.old) }
    requires fact_2 { Near (pt_of p) }
    requires fact_3 { Place points.old (pt_of p) n a }
    ensures { queue_of points.new result ≡ queued vertex_rows (pt_of p) (queue_of points.old n) }
{
    if stands_at(points, n, a, p) {
        return n;
    }
    lift(points, POINT_WIDTH * a, POINT_WIDTH * n, POINT_WIDTH);
    store(points, a, [p.x, p.y, p.d, guess]);
    n + 1
}

// Puts the crossing p among n rows where it is not there yet, if there is room for one more. Answers how many rows there are.
pub fn crossing_in(points: &mut [i64], n: usize, p: Point, guess: i64) -> usize
    requires fact_1 { Points points.old n }
    requires fact_2 { Near (pt_of p) }
    requires fact_3 { Lasts (the_before_at points.old (pt_of p)) n }
    requires fact_4 { 4 * vertex_rows ≤ length points.old }
    ensures { queue_of points.new result ≡ queued vertex_rows (pt_of p) (queue_of points.old n) }
{
    if VERTEX_ROWS <= n {
        return n;
    }
    let a = place_near(points, n, p);
    put_at(points, n, a, p, guess)
}

// The same of a corner, which may belong anywhere.
pub fn corner_in(points: &mut [i64], n: usize, p: Point) -> usize
    requires fact_1 { Points points.old n }
    requires fact_2 { Near (pt_of p) }
    requires fact_3 { Lasts (the_before_at points.old (pt_of p)) n }
    requires fact_4 { 4 * vertex_rows ≤ length points.old }
    ensures { queue_of points.new result ≡ queued vertex_rows (pt_of p) (queue_of points.old n) }
{
    if VERTEX_ROWS <= n {
        return n;
    }
    let a = place_in(points, n, 0, n, p);
    put_at(points, n, a, p, 0)
}
