// Rules 5 to 7: the vertices and edges of a map in its tables, each rule a search for its least place. Then the carriers, which can be made where rules 5 and 7
// find nothing.
ghost use Rattle.std.specs.Prelude.{◌≡◌, ◌+◌, ◌*◌, ◌≤◌, ◌<◌, length};
ghost use Rattle.seq.specs.Seq.{least, laid};
ghost use Rattle.paper.specs.Limits.{map_vertices, map_edges};
ghost use Rattle.paper.specs.Refusal.{first_of};
ghost use Rattle.plane.specs.Bounds.{Edge};
ghost use Rattle.plane.specs.Values.{vec_of, seg_of};
ghost use Rattle.graph.specs.Flat.{Origins};
ghost use Rattle.map_file.specs.Verdict.{verdict};
ghost use Rattle.map_check.specs.Parts.{corner_in, far_at, lies_on, doubled_at, bad_ends_at, part_faults_at, Corners, carrier_by, carrier_row_by};

use graph::store_carrier;
use limits::{POINT_WIDTH, REACH};
use map_file::{Check, given};
use plane::{Seg, Vector, between};

// The corner in row v.
fn corner(points: &[i64], v: usize) -> Vector
    requires { 4 * v + 4 ≤ length points.now }
    ensures { vec_of result ≡ corner_in points.now v }
{
    let at = POINT_WIDTH * v;
    Vector {
        x: points[at],
        y: points[at + 1],
    }
}

// 5 "a coordinate beyond its range"
fn too_far(points: &[i64], v: usize) -> bool
    requires { 4 * v + 4 ≤ length points.now }
    ensures { result ≡ far_at points.now v }
{
    let a = corner(points, v);
    REACH < a.x.unsigned_abs() || REACH < a.y.unsigned_abs()
}

// The least vertex too far out, or the number of vertices.
pub fn first_too_far(points: &[i64], n: usize) -> usize
    requires { 4 * n ≤ length points.now }
    ensures { result ≡ least (far_at points.now) n }
{
    (0..n).position(|v| too_far(points, v)).unwrap_or(n)
}

// Vertex v lies on vertex u.
fn lies_on(points: &[i64], v: usize, u: usize) -> bool
    requires { (4 * v + 4 ≤ length points.now) × (4 * u + 4 ≤ length points.now) }
    ensures { result ≡ lies_on points.now v u }
{
    corner(points, v) == corner(points, u)
}

// The least vertex below v that v lies on, or v.
fn first_under(points: &[i64], v: usize) -> usize
    requires { 4 * v + 4 ≤ length points.now }
    ensures { result ≡ least (lies_on points.now v) v }
{
    (0..v).position(|u| lies_on(points, v, u)).unwrap_or(v)
}

// 6 "a vertex lies on one of lower number": the least such, or the number of vertices.
fn first_doubled(points: &[i64], n: usize) -> usize
    requires { 4 * n ≤ length points.now }
    ensures { result ≡ least (doubled_at points.now) n }
{
    for higher in 0..n {
        let lower = first_under(points, higher);
        if lower < higher {
            return higher;
        }
    }
    n
}

// 7 "an end names no vertex, or both ends are the same"
fn bad_ends(origins: &[u16], n: usize, k: usize) -> bool
    requires { 2 * k + 2 ≤ length origins.now }
    ensures { result ≡ bad_ends_at origins.now n k }
{
    let a = origins[2 * k] as usize;
    let b = origins[2 * k + 1] as usize;
    n <= a || n <= b || a == b
}

// The least edge with bad ends, or the number of edges.
fn first_bad_ends(origins: &[u16], n: usize, e: usize) -> usize
    requires { 2 * e ≤ length origins.now }
    ensures { result ≡ least (bad_ends_at origins.now n) e }
{
    (0..e).position(|k| bad_ends(origins, n, k)).unwrap_or(e)
}

// The first of rules 5 to 7 that a map of n vertices and e edges breaks.
pub fn part_fault(points: &[i64], origins: &[u16], n: usize, e: usize) -> Check
    requires fact_1 { 4 * n ≤ length points.now }
    requires fact_2 { 2 * e ≤ length origins.now }
    requires fact_3 { n ≤ map_vertices }
    requires fact_4 { e ≤ map_edges }
    ensures { verdict result ≡ first_of (part_faults_at points.now origins.now n e) }
{
    let far = first_too_far(points, n);
    given(5, far as u16, far < n)?;
    let twice = first_doubled(points, n);
    given(6, twice as u16, twice < n)?;
    let ends = first_bad_ends(origins, n, e);
    given(7, ends as u16, ends < e)
}

// Edge k from its lower end.
fn carrier(points: &[i64], origins: &[u16], n: usize, e: usize, k: usize) -> Seg
    requires fact_1 { Corners points.now n }
    requires fact_2 { Origins origins.now (2 * e) n }
    requires fact_3 { k < e }
    ensures is { seg_of result ≡ carrier_by points.now origins.now k }
    ensures near { Edge (seg_of result) }
{
    let a = corner(points, origins[2 * k] as usize);
    let b = corner(points, origins[2 * k + 1] as usize);
    between(a, b)
}

// The carrier of each edge: its lower end and the direction to its upper end.
pub fn lay_carriers(points: &[i64], origins: &[u16], n: usize, e: usize, carriers: &mut [i16])
    requires fact_1 { Corners points.now n }
    requires fact_2 { Origins origins.now (2 * e) n }
    requires fact_3 { 4 * e ≤ length carriers.old }
    ensures { carriers.new ≡ laid e (carrier_row_by points.now origins.now) carriers.old }
{
    for k in 0..e {
        store_carrier(carriers, k, carrier(points, origins, n, e, k));
    }
}
