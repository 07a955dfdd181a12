// The overlay's vertices collected: "all corners", and where edges of different maps meet, each point once. All are in lowest terms, so that a point is one that
// stands there already exactly if its three numbers are the same.
ghost use Rattle.std.specs.Prelude.{◌≡◌, [], ◌∷◌, ◌++◌, ◌+◌, ◌*◌, ◌≤◌, ◌<◌, length};
ghost use Rattle.seq.specs.Seq.{optional};
ghost use Rattle.paper.specs.Meeting.{meeting, point_of};
ghost use Rattle.paper.specs.Limits.{maps};
ghost use Rattle.laws_plane.specs.Cone.{UpV};
ghost use Rattle.plane.specs.Bounds.{Near, Edge};
ghost use Rattle.plane.specs.Values.{pt_of, seg_of};
ghost use Rattle.graph.specs.Flat.{Points, Carriers, the_point_at};
ghost use Rattle.graph.specs.Upright.{Upright};
ghost use Rattle.overlay_cut.specs.Points.{points_of, equal};
ghost use Rattle.overlay_cut.specs.Collecting.{gathered, stands_among};
ghost use Rattle.overlay_cut.specs.Crossed.{PointTable, cross_row, cross_map, cross_all};
ghost use Rattle.overlay_cut.specs.Cuts.{start_of, Starts};

use graph::{carrier_at, point_at};
use limits::{MAPS, POINT_WIDTH};
use plane::{Meeting, Point, Seg, boxes_apart, meeting};
use seq::store;

// Whether row k holds the three numbers of p.
fn is_at(points: &[i64], k: usize, p: Point) -> bool
    requires fact_1 { 4 * k + 4 ≤ length points.now }
    requires fact_2 { Near (pt_of p) }
    ensures { result ≡ equal (pt_of p) (the_point_at points.now k) }
{
    let at = POINT_WIDTH * k;
    p.x == points[at] && (p.y == points[at + 1] && p.d == points[at + 2])
}

// Whether one of the first n rows does.
fn stands(points: &[i64], n: usize, p: Point) -> bool
    requires fact_1 { 4 * n ≤ length points.now }
    requires fact_2 { Near (pt_of p) }
    ensures { result ≡ stands_among points.now n (pt_of p) }
{
    (0..n).any(|k| is_at(points, k, p))
}

// Appends p to n points where it is new, if there is room for one more row. Answers how many there are.
fn append_new(points: &mut [i64], room: usize, n: usize, p: Point) -> usize
    requires fact_1 { PointTable points.old room n }
    requires fact_2 { Near (pt_of p) }
    ensures { points_of points.new result ≡ gathered room (points_of points.old n) (pt_of p ∷ []) }
{
    if room <= n {
        return n;
    }
    if stands(points, n, p) {
        return n;
    }
    store(points, n, [p.x, p.y, p.d, 0]);
    n + 1
}

// Appends the point where s and t touch or cross; edges go up. Nothing is reckoned of two whose boxes are apart.
fn cross_pair(s: Seg, t: Seg, points: &mut [i64], room: usize, n: usize) -> usize
    requires fact_1 { PointTable points.old room n }
    requires fact_2 { Edge (seg_of s) × Edge (seg_of t) }
    requires fact_3 { UpV (seg_of s).up × UpV (seg_of t).up }
    ensures { points_of points.new result ≡ gathered room (points_of points.old n) (optional (point_of (meeting (seg_of s) (seg_of t)))) }
{
    if boxes_apart(s, t) {
        return n;
    }
    match meeting(s, t) {
        Meeting::Apart => n,
        Meeting::Touching(p) => append_new(points, room, n, p),
        Meeting::Crossing(p) => append_new(points, room, n, p),
        Meeting::Sharing => n,
    }
}

// Appends the points where t meets the first e edges.
fn cross_row(carriers: &[i16], e: usize, t: Seg, points: &mut [i64], room: usize, n: usize) -> usize
    requires fact_1 { PointTable points.old room n }
    requires fact_2 { Carriers carriers.now e }
    requires fact_3 { Edge (seg_of t) }
    requires fact_4 { Upright carriers.now e }
    requires fact_5 { UpV (seg_of t).up }
    ensures { points_of points.new result ≡ gathered room (points_of points.old n) (cross_row carriers.now e (seg_of t)) }
{
    let mut total = n;
    for j in 0..e {
        let s = carrier_at(carriers, j);
        total = cross_pair(s, t, points, room, total);
    }
    total
}

// Appends the points where the e edges from row `from` on, those of one map, meet the edges before them.
fn cross_map(
    carriers: &[i16],
    from: usize,
    e: usize,
    points: &mut [i64],
    room: usize,
    n: usize,
) -> usize
    requires fact_1 { PointTable points.old room n }
    requires fact_2 { Carriers carriers.now (from + e) }
    requires fact_3 { Upright carriers.now (from + e) }
    ensures { points_of points.new result ≡ gathered room (points_of points.old n) (cross_map carriers.now from e) }
{
    let mut total = n;
    for k in 0..e {
        let t = carrier_at(carriers, from + k);
        total = cross_row(carriers, from, t, points, room, total);
    }
    total
}

// Appends the first c rows of the table of corners.
fn corners(corners: &[i64], c: usize, points: &mut [i64], room: usize, n: usize) -> usize
    requires fact_1 { PointTable points.old room n }
    requires fact_2 { Points corners.now c }
    ensures { points_of points.new result ≡ gathered room (points_of points.old n) (points_of corners.now c) }
{
    let mut total = n;
    for v in 0..c {
        let p = point_at(corners, v);
        total = append_new(points, room, total, p);
    }
    total
}

// Appends the points where edges of different maps meet.
fn crossings(carriers: &[i16], starts: &[usize], points: &mut [i64], room: usize, n: usize) -> usize
    requires fact_1 { PointTable points.old room n }
    requires fact_2 { Starts starts.now carriers.now }
    requires fact_3 { Upright carriers.now (start_of starts.now maps) }
    ensures { points_of points.new result ≡ gathered room (points_of points.old n) (cross_all carriers.now starts.now) }
{
    let mut total = n;
    for m in 0..MAPS {
        let from = starts[m];
        let e = starts[m + 1] - from;
        total = cross_map(carriers, from, e, points, room, total);
    }
    total
}

// The corners and the crossings, each point once, in a table with room for so many rows: how many there are, or `room` where there are as many or more.
pub fn collect(
    corner_rows: &[i64],
    c: usize,
    carriers: &[i16],
    starts: &[usize],
    out: &mut [i64],
    room: usize,
) -> usize
    requires fact_1 { PointTable out.old room 0 }
    requires fact_2 { Points corner_rows.now c }
    requires fact_3 { Starts starts.now carriers.now }
    requires fact_4 { Upright carriers.now (start_of starts.now maps) }
    ensures { points_of out.new result ≡ gathered room [] (points_of corner_rows.now c ++ cross_all carriers.now starts.now) }
{
    let n = corners(corner_rows, c, out, room, 0);
    crossings(carriers, starts, out, room, n)
}
