// Looking west: from a point along a direction. Along (0, 0) only edges strictly west count.
ghost use Rattle.std.specs.Prelude.{◌≡◌, ◌+◌, ◌*◌, ◌≤◌, ◌<◌, length};
ghost use Rattle.seq.specs.Seq.{best};
ghost use Rattle.paper.specs.Limits.{absent};
ghost use Rattle.paper.specs.Graph.{twin, nearer, west};
ghost use Rattle.laws_graph.specs.West.{candidate};
ghost use Rattle.plane.specs.Values.{pt_of, vec_of, seg_of};
ghost use Rattle.plane.specs.Bounds.{Direction, Near, Edge};
ghost use Rattle.graph.specs.Flat.{Starts, Carried};
ghost use Rattle.graph.specs.Given.{Drawn, graph_of};
ghost use Rattle.graph.specs.Pick.{better};
ghost use Rattle.graph.specs.Look.{the_seen_of, height_at, westward_of, nearer_of, candidate_at, nearer_at, east_at, seen_label};

use super::flat::FlatGraph;
use super::heading::{carrier_at, goes_up, start};
use exact::products;
use plane::{Point, Seg, Vector, below, cross_of, left_by, rises};

// "lower y ≤ y of p < upper y": one end of edge k is above p and the other is not.
fn at_height(points: &[i64], origins: &[u16], k: usize, p: Point) -> bool
    requires { (2 * k ≤ absent) × Starts points.now origins.now (2 * k) × Starts points.now origins.now (2 * k + 1) × Near (pt_of p) }
    ensures { result ≡ height_at points.now origins.now (pt_of p) k }
{
    let from = below(p, start(points, origins, 2 * k));
    let to = below(p, start(points, origins, 2 * k + 1));
    from != to
}

// "lie west of p, or go through or start at p with an upward direction of greater angle than" d.
fn westward(s: Seg, p: Point, d: Vector) -> bool
    requires { Edge (seg_of s) × Near (pt_of p) × Direction (vec_of d) }
    ensures { result ≡ westward_of (seg_of s) (pt_of p) (vec_of d) }
{
    let turn = cross_of(d.x, d.y, s.u, s.v);
    let left = left_by(s, p);
    rises(Vector { x: turn, y: -left })
}

// "The nearest has the greatest x at that height; among equals, the smallest upward angle": whether s is nearer than t.
fn nearer(s: Seg, t: Seg, p: Point) -> bool
    requires { Edge (seg_of s) × Edge (seg_of t) × Near (pt_of p) }
    ensures { result ≡ nearer_of (seg_of s) (seg_of t) (pt_of p) }
{
    products(left_by(s, p), t.v, left_by(t, p), s.v)
        .then_with(|| cross_of(s.u, s.v, t.u, t.v).cmp(&0))
        .is_gt()
}

// Whether edge k is a candidate.
pub fn candidate(
    points: &[i64],
    origins: &[u16],
    carriers: &[i16],
    k: usize,
    p: Point,
    d: Vector,
) -> bool
    requires { (2 * k ≤ absent) × Starts points.now origins.now (2 * k) × Starts points.now origins.now (2 * k + 1) × Carried carriers.now k × Near (pt_of p) × Direction (vec_of d) }
    ensures { result ≡ candidate_at points.now origins.now carriers.now (pt_of p) (vec_of d) k }
{
    at_height(points, origins, k, p) && westward(carrier_at(carriers, k), p, d)
}

// With r the nearest candidate so far, `none` where there is none yet: k too. `none` is the number of edges, as in the laws of a search (Picking of seq), where an Option would be read back into it.
pub fn nearest(carriers: &[i16], none: usize, k: usize, r: usize, p: Point) -> usize
    requires { Carried carriers.now k × (r < none → Carried carriers.now r) × (r ≤ none) × Near (pt_of p) }
    ensures { result ≡ better (nearer_at carriers.now (pt_of p)) none k r }
{
    if r == none || nearer(carrier_at(carriers, k), carrier_at(carriers, r), p) {
        k
    } else {
        r
    }
}

// The nearest candidate, from p along d.
pub fn look(g: FlatGraph, p: Point, d: Vector) -> Option<u16>
    requires fact_1 { Drawn g }
    requires fact_2 { 2 * g.edges ≤ absent }
    requires fact_3 { Near (pt_of p) }
    requires fact_4 { Direction (vec_of d) }
    ensures { the_seen_of result ≡ best (candidate (graph_of g.entry) (pt_of p) (vec_of d)) (nearer (graph_of g.entry) (pt_of p)) g.entry.edges }
{
    let e = g.edges;
    let mut r = e;
    for k in 0..e {
        if candidate(g.points, g.origins, g.carriers, k, p, d) {
            r = nearest(g.carriers, e, k, r, p);
        }
    }
    if r == e { None } else { Some(r as u16) }
}

// "the half-edge on its east side": the one that goes down.
pub fn east_side(points: &[i64], origins: &[u16], k: usize) -> usize
    requires { (2 * k ≤ absent) × Starts points.now origins.now (2 * k) × Starts points.now origins.now (2 * k + 1) }
    ensures { result ≡ east_at points.now origins.now k }
{
    if goes_up(points, origins, 2 * k) {
        2 * k + 1
    } else {
        2 * k
    }
}

// "What is seen is the half-edge on its east side. With no candidate, the outside is seen": from p along d.
pub fn seen_half(g: FlatGraph, p: Point, d: Vector) -> Option<u16>
    requires fact_1 { Drawn g }
    requires fact_2 { 2 * g.edges ≤ absent }
    requires fact_3 { Near (pt_of p) }
    requires fact_4 { Direction (vec_of d) }
    ensures { the_seen_of result ≡ west (graph_of g.entry) (pt_of p) (vec_of d) }
{
    let k = look(g, p, d)?;
    Some(east_side(g.points, g.origins, k as usize) as u16)
}

// The label of what is seen from p along d, of labels by half-edge; 0 where the outside is seen.
pub fn seen_label(g: FlatGraph, labels: &[u16], p: Point, d: Vector) -> u16
    requires fact_1 { Drawn g }
    requires fact_2 { 2 * g.edges ≤ absent }
    requires fact_3 { 2 * g.edges ≤ length labels.now }
    requires fact_4 { Near (pt_of p) }
    requires fact_5 { Direction (vec_of d) }
    ensures { result ≡ seen_label (graph_of g.entry) labels.now (pt_of p) (vec_of d) }
{
    match seen_half(g, p, d) {
        Some(x) => labels[x as usize],
        None => 0,
    }
}
