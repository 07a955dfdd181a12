// Rule 10: half-edges at which labels disagree, a search for the least, over the tables of a map with its followers and the half-edge of greatest angle out of each vertex.
ghost use Rattle.std.specs.Prelude.{◌≡◌, ◌*◌, ◌≤◌, ◌<◌, length};
ghost use Rattle.seq.specs.Seq.{least};
ghost use Rattle.paper.specs.Limits.{absent};
ghost use Rattle.graph.specs.Given.{Drawn};
ghost use Rattle.graph.specs.Flat.{origin_at, Starts};
ghost use Rattle.map_check.specs.Labels.{earlier_at, smallest_at, makes_hole_at, seen_west, disagrees_at, Walked, Linked};

use graph::{FlatGraph, seen_label, start};
use plane::{Vector, before};

// Whether half-edge x starts at a smaller vertex than h.
fn earlier(points: &[i64], origins: &[u16], h: usize, x: usize) -> bool
    requires { Starts points.now origins.now h × Starts points.now origins.now x }
    ensures { result ≡ earlier_at points.now origins.now h x }
{
    before(start(points, origins, x), start(points, origins, h))
}

// Whether no half-edge of the walk of h starts at a smaller vertex.
fn is_smallest(points: &[i64], origins: &[u16], next: &[u16], m: usize, h: usize) -> bool
    requires { Walked points.now origins.now next.now m × (h < m) }
    ensures { result ≡ smallest_at points.now origins.now next.now m h }
{
    let mut x = next[h] as usize;
    for _step in 0..m {
        if x == h {
            return true;
        }
        if earlier(points, origins, h, x) {
            return false;
        }
        x = next[x] as usize;
    }
    true
}

// Whether h "is the greatest-angle half-edge that makes its walk a hole walk": it is the one of greatest angle out of its origin, as few are, and no half-edge of its walk starts at a
// smaller vertex.
fn makes_hole(
    points: &[i64],
    origins: &[u16],
    heads: &[u16],
    next: &[u16],
    m: usize,
    h: usize,
) -> bool
    requires { (m ≤ length origins.now) × Walked points.now origins.now next.now m × (h < m) × (origin_at origins.now h < length heads.now) × (m ≤ absent) }
    ensures { result ≡ makes_hole_at points.now origins.now heads.now next.now m h }
{
    let v = origins[h] as usize;
    heads[v] == h as u16 && is_smallest(points, origins, next, m, h)
}

// The label of the half-edge seen strictly west of where h starts, or 0 where the outside is seen.
fn seen_west(g: FlatGraph, labels: &[u16], h: usize) -> u16
    requires fact_1 { Drawn g }
    requires fact_2 { 2 * g.edges ≤ absent }
    requires fact_3 { 2 * g.edges ≤ length labels.now }
    requires fact_4 { h < 2 * g.edges }
    ensures { result ≡ seen_west g.entry.points.now g.entry.origins.now g.entry.carriers.now labels.now g.entry.vertices g.entry.edges h }
{
    let p = start(g.points, g.origins, h);
    seen_label(g, labels, p, Vector { x: 0, y: 0 })
}

// Whether labels disagree at half-edge h.
fn disagrees(g: FlatGraph, labels: &[u16], heads: &[u16], next: &[u16], h: usize) -> bool
    requires { Linked g.points.now g.origins.now g.carriers.now labels.now heads.now next.now g.vertices g.edges × (h < 2 * g.edges) }
    ensures { result ≡ disagrees_at g.entry.points.now g.entry.origins.now g.entry.carriers.now labels.now heads.now next.now g.entry.vertices g.entry.edges h }
{
    let f = next[h] as usize;
    let label = labels[h];
    label != labels[f]
        || (makes_hole(g.points, g.origins, heads, next, 2 * g.edges, h)
            && label != seen_west(g, labels, h))
}

// The least half-edge at which labels disagree, or the number of half-edges.
pub fn first_disagreeing(g: FlatGraph, labels: &[u16], heads: &[u16], next: &[u16]) -> usize
    requires { Linked g.points.now g.origins.now g.carriers.now labels.now heads.now next.now g.vertices g.edges }
    ensures { result ≡ least (disagrees_at g.entry.points.now g.entry.origins.now g.entry.carriers.now labels.now heads.now next.now g.entry.vertices g.entry.edges) (2 * g.entry.edges) }
{
    let m = 2 * g.edges;
    (0..m)
        .position(|h| disagrees(g, labels, heads, next, h))
        .unwrap_or(m)
}
