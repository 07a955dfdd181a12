// Looking west in a map: most of its edges are not at the height of the point, which two products say of an edge between corners.
ghost use Rattle.std.specs.Prelude.{◌≡◌, false, ◌+◌, ◌*◌, ◌≤◌, ◌<◌, length};
ghost use Rattle.seq.specs.Seq.{cond, best};
ghost use Rattle.paper.specs.Limits.{absent};
ghost use Rattle.paper.specs.Graph.{nearer};
ghost use Rattle.laws_graph.specs.West.{candidate};
ghost use Rattle.plane.specs.Values.{pt_of, vec_of, seg_of};
ghost use Rattle.plane.specs.Bounds.{Direction, Near, Edge};
ghost use Rattle.graph.specs.Flat.{flat_graph, Flat, Starts, Carried, carrier_at};
ghost use Rattle.graph.specs.Look.{the_seen_of, candidate_at, nearer_at, seen_label};
ghost use Rattle.graph.specs.Pick.{better};
ghost use Rattle.overlay_maps.specs.Ended.{Ended, height_of};
ghost use Rattle.overlay_maps.specs.Given.{the_tables, Legible};

use crate::tables::FlatMap;
use graph::{candidate, carrier_at, east_side, nearest};
use plane::{Point, Seg, Vector};

// "lower y ≤ y of p < upper y", of an edge between corners.
fn at_height(s: Seg, p: Point) -> bool
    requires { Edge (seg_of s) × Near (pt_of p) }
    ensures { result ≡ height_of (seg_of s) (pt_of p) }
{
    if p.y < s.y * p.d {
        false
    } else {
        p.y < (s.y + s.v) * p.d
    }
}

// With r the nearest candidate so far, the number of edges where there is none yet: edge k too, if it is a candidate.
fn take(m: FlatMap, k: usize, r: usize, p: Point, d: Vector) -> usize
    requires fact_1 { (2 * k ≤ absent) × Starts m.points.now m.origins.now (2 * k) × Starts m.points.now m.origins.now (2 * k + 1) × Carried m.carriers.now k × (r < m.edges → Carried m.carriers.now r) × (r ≤ m.edges) × Near (pt_of p) × Direction (vec_of d) }
    requires fact_2 { (height_of (carrier_at m.carriers.now k) (pt_of p) ≡ false → candidate_at m.points.now m.origins.now m.carriers.now (pt_of p) (vec_of d) k ≡ false) }
    ensures { result ≡ cond (candidate_at m.entry.points.now m.entry.origins.now m.entry.carriers.now (pt_of p) (vec_of d) k) (better (nearer_at m.entry.carriers.now (pt_of p)) m.entry.edges k r) r }
{
    if at_height(carrier_at(m.carriers, k), p)
        && candidate(m.points, m.origins, m.carriers, k, p, d)
    {
        nearest(m.carriers, m.edges, k, r, p)
    } else {
        r
    }
}

// The nearest candidate, from p along d.
fn look(m: FlatMap, p: Point, d: Vector) -> Option<u16>
    requires fact_1 { Legible (the_tables m) }
    requires fact_2 { Near (pt_of p) }
    requires fact_3 { Direction (vec_of d) }
    ensures { the_seen_of result ≡ best (candidate (flat_graph m.entry.points.now m.entry.origins.now m.entry.carriers.now m.entry.vertices m.entry.edges) (pt_of p) (vec_of d)) (nearer (flat_graph m.entry.points.now m.entry.origins.now m.entry.carriers.now m.entry.vertices m.entry.edges) (pt_of p)) m.entry.edges }
{
    let mut r = m.edges;
    for k in 0..m.edges {
        r = take(m, k, r, p, d);
    }
    if r == m.edges { None } else { Some(r as u16) }
}

// The label of what is seen from p along d, of labels by half-edge; 0 where the outside is seen.
pub fn seen_label(m: FlatMap, p: Point, d: Vector) -> u16
    requires fact_1 { Legible (the_tables m) }
    requires fact_2 { Near (pt_of p) }
    requires fact_3 { Direction (vec_of d) }
    ensures { result ≡ seen_label (flat_graph m.entry.points.now m.entry.origins.now m.entry.carriers.now m.entry.vertices m.entry.edges) m.entry.labels.now (pt_of p) (vec_of d) }
{
    match look(m, p, d) {
        None => 0,
        Some(k) => m.labels[east_side(m.points, m.origins, k as usize)],
    }
}
