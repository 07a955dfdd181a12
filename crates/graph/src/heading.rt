// Which way a half-edge goes.
ghost use Rattle.std.specs.Prelude.{◌≡◌, [], ◌∷◌, ◌+◌, ◌*◌, ◌/◌, ◌≤◌, ◌<◌, length, neg_ℤ};
ghost use Rattle.seq.specs.Seq.{laid, row_stored};
ghost use Rattle.paper.specs.Limits.{absent};
ghost use Rattle.paper.specs.Plane.{opposite};
ghost use Rattle.paper.specs.Graph.{twin, heading};
ghost use Rattle.plane.specs.Values.{pt_of, vec_of, seg_of};
ghost use Rattle.plane.specs.Bounds.{Direction, Near, Edge};
ghost use Rattle.graph.specs.Flat.{the_point_at, carrier_at, origin_at, start_at, Starts, Carried};
ghost use Rattle.graph.specs.Given.{Drawn, graph_of};
ghost use Rattle.graph.specs.Rising.{RisesIf};
ghost use Rattle.graph.specs.Heading.{the_up_at, heading_at, row};

use super::flat::FlatGraph;
use super::rising::{rise, starts_first};
use limits::{CARRIER_WIDTH, POINT_WIDTH};
use plane::{Point, Seg, Vector, before};

// The other half-edge of its edge.
pub fn twin(h: usize) -> usize
    requires { h ≤ absent }
    ensures { result ≡ twin h }
{
    if h % 2 == 0 { h + 1 } else { h - 1 }
}

// The point in row v.
pub fn point_at(points: &[i64], v: usize) -> Point
    requires { 4 * v + 4 ≤ length points.now }
    ensures { pt_of result ≡ the_point_at points.now v }
{
    let at = POINT_WIDTH * v;
    Point {
        x: points[at],
        y: points[at + 1],
        d: points[at + 2],
    }
}

// The carrier in row k.
pub fn carrier_at(carriers: &[i16], k: usize) -> Seg
    requires { Carried carriers.now k }
    ensures is { seg_of result ≡ carrier_at carriers.now k }
    ensures near { Edge (seg_of result) }
{
    let at = CARRIER_WIDTH * k;
    Seg {
        x: i64::from(carriers[at]),
        y: i64::from(carriers[at + 1]),
        u: i64::from(carriers[at + 2]),
        v: i64::from(carriers[at + 3]),
    }
}

// Stores a carrier as row k.
pub fn store_carrier(out: &mut [i16], k: usize, s: Seg)
    requires fact_1 { 4 * k + 4 ≤ length out.old }
    requires fact_2 { Edge (seg_of s) }
    ensures { out.new ≡ row_stored 4 out.old k (s.x ∷ s.y ∷ s.u ∷ s.v ∷ []) }
{
    seq::store(out, k, [s.x as i16, s.y as i16, s.u as i16, s.v as i16]);
}

// The point where half-edge h starts.
pub fn start(points: &[i64], origins: &[u16], h: usize) -> Point
    requires { Starts points.now origins.now h }
    ensures is { pt_of result ≡ start_at points.now origins.now h }
    ensures near { Near (pt_of result) }
{
    point_at(points, origins[h] as usize)
}

// Whether half-edge h goes up.
pub fn goes_up(points: &[i64], origins: &[u16], h: usize) -> bool
    requires { (h ≤ absent) × Starts points.now origins.now h × Starts points.now origins.now (twin h) }
    ensures { result ≡ the_up_at points.now origins.now h }
{
    before(start(points, origins, h), start(points, origins, twin(h)))
}

fn opposite(u: Vector) -> Vector
    requires { Direction (vec_of u) }
    ensures is { vec_of result ≡ opposite (vec_of u) }
    ensures near { Direction (vec_of result) }
{
    Vector { x: -u.x, y: -u.y }
}

// The direction in which half-edge h goes; `rising` says that the points rise.
fn heading(g: FlatGraph, rising: bool, h: usize) -> Vector
    requires fact_1 { (h ≤ absent) × Starts g.points.now g.origins.now h × Starts g.points.now g.origins.now (twin h) × Carried g.carriers.now (h / 2) }
    requires fact_2 { RisesIf rising g.points.now g.vertices }
    requires fact_3 { (origin_at g.origins.now h < g.vertices) × (origin_at g.origins.now (twin h) < g.vertices) }
    ensures is { vec_of result ≡ heading_at g.entry.points.now g.entry.origins.now g.entry.carriers.now h }
    ensures near { Direction (vec_of result) }
{
    let s = carrier_at(g.carriers, h / 2);
    let u = Vector { x: s.u, y: s.v };
    let t = twin(h);
    if starts_first(g.points, g.origins, g.vertices, rising, h, t) {
        u
    } else {
        opposite(u)
    }
}

// Stores a direction as row h.
fn store(out: &mut [i16], h: usize, u: Vector)
    requires fact_1 { 2 * h + 2 ≤ length out.old }
    requires fact_2 { Direction (vec_of u) }
    ensures { out.new ≡ row_stored 2 out.old h (row (vec_of u)) }
{
    seq::store(out, h, [u.x as i16, u.y as i16]);
}

// The heading of every half-edge, a row each; `rising` says that the points rise.
pub fn headings_by(g: FlatGraph, rising: bool, out: &mut [i16])
    requires fact_1 { Drawn g }
    requires fact_2 { RisesIf rising g.points.now g.vertices }
    requires fact_3 { 2 * g.edges ≤ absent }
    requires fact_4 { 2 * (2 * g.edges) ≤ length out.old }
    ensures { out.new ≡ laid (2 * g.entry.edges) (λ h. row (heading (graph_of g.entry) h)) out.old }
{
    for h in 0..2 * g.edges {
        store(out, h, heading(g, rising, h));
    }
}

// The heading of every half-edge, a row each.
pub fn headings(g: FlatGraph, out: &mut [i16])
    requires { Drawn g × ((2 * g.edges ≤ absent) × (2 * (2 * g.edges) ≤ length out.old)) }
    ensures { out.new ≡ laid (2 * g.entry.edges) (λ h. row (heading (graph_of g.entry) h)) out.old }
{
    headings_by(g, rise(g.points, g.vertices), out);
}
