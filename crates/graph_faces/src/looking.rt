// What a hole walk sees: "look from its smallest vertex counting only edges strictly west". Where the points rise, vertex numbers do for heights.
ghost use Rattle.std.specs.Prelude.{◌≡◌, ◌+◌, ◌*◌, ◌<◌, length};
ghost use Rattle.seq.specs.Seq.{best};
ghost use Rattle.paper.specs.Plane.{nowhere};
ghost use Rattle.paper.specs.Graph.{nearer};
ghost use Rattle.laws_graph.specs.West.{candidate};
ghost use Rattle.plane.specs.Values.{pt_of};
ghost use Rattle.graph.specs.Given.{graph_of};
ghost use Rattle.graph.specs.Flat.{the_point_at};
ghost use Rattle.graph.specs.Look.{the_seen_of, candidate_at};
ghost use Rattle.graph_faces.specs.Kinds.{seen_from};
ghost use Rattle.graph_faces.specs.Sides.{Sighted, the_one_side};

use graph::{FlatGraph, candidate, east_side, nearest, point_at};
use limits::ABSENT;
use plane::{Point, Vector};

// Whether both ends of edge k have numbers after v, or neither has.
fn one_side(origins: &[u16], k: usize, v: usize) -> bool
    requires { 2 * k + 1 < length origins.now }
    ensures { result ≡ the_one_side origins.now k v }
{
    (v < origins[2 * k] as usize) == (v < origins[2 * k + 1] as usize)
}

// Whether edge k is a candidate from p, the point of vertex v, where only edges strictly west count. Where the points rise none with both ends after v is, and none with neither.
fn strictly_west(g: FlatGraph, rising: bool, k: usize, v: usize, p: Point) -> bool
    requires fact_1 { Sighted g.points.now g.origins.now g.carriers.now g.vertices g.edges rising }
    requires fact_2 { (k < g.edges) × (v < g.vertices) × (pt_of p ≡ the_point_at g.points.now v) }
    ensures { result ≡ candidate_at g.entry.points.now g.entry.origins.now g.entry.carriers.now (pt_of p) nowhere k }
{
    if rising && one_side(g.origins, k, v) {
        return false;
    }
    candidate(g.points, g.origins, g.carriers, k, p, Vector { x: 0, y: 0 })
}

// The nearest edge strictly west of p, the point of vertex v.
fn look_from(g: FlatGraph, rising: bool, v: usize, p: Point) -> Option<u16>
    requires fact_1 { Sighted g.points.now g.origins.now g.carriers.now g.vertices g.edges rising }
    requires fact_2 { (v < g.vertices) × (pt_of p ≡ the_point_at g.points.now v) }
    ensures { the_seen_of result ≡ best (candidate (graph_of g.entry) (pt_of p) nowhere) (nearer (graph_of g.entry) (pt_of p)) g.entry.edges }
{
    let mut r = g.edges;
    for k in 0..g.edges {
        if strictly_west(g, rising, k, v, p) {
            r = nearest(g.carriers, g.edges, k, r, p);
        }
    }
    if r == g.edges { None } else { Some(r as u16) }
}

// The half-edge that is seen strictly west of vertex v. ABSENT where it is the outside.
pub fn seen_from(g: FlatGraph, rising: bool, v: usize) -> u16
    requires fact_1 { Sighted g.points.now g.origins.now g.carriers.now g.vertices g.edges rising }
    requires fact_2 { v < g.vertices }
    ensures { result ≡ seen_from g.entry.points.now g.entry.origins.now g.entry.carriers.now g.entry.vertices g.entry.edges v }
{
    let p = point_at(g.points, v);
    let seen = look_from(g, rising, v, p);
    match seen {
        None => ABSENT,
        Some(k) => east_side(g.points, g.origins, k as usize) as u16,
    }
}
