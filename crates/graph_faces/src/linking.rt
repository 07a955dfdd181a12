// The walks and the faces of a graph in flat tables, all at once.
ghost use Rattle.std.specs.Prelude.{◌*◌, ◌≤◌, ◌<◌, length};
ghost use Rattle.paper.specs.Limits.{overlay_vertices, overlay_edges};
ghost use Rattle.laws_graph.specs.Plane.{Plane};
ghost use Rattle.graph.specs.Given.{Drawn, graph_of};
ghost use Rattle.graph.specs.Flat.{flat_graph, Flat};
ghost use Rattle.graph_faces.specs.Linked.{Linked, Led, Numbered};

use super::links::link_in;
use super::numbering::{settle, tell};
use graph::{FlatGraph, is_small, rise};
use limits::{
    HALVES, HEADING_CELLS, SMALL_EDGES, SMALL_HALVES, SMALL_HEADING_CELLS, SMALL_VERTICES, VERTICES,
};

// "A walk is what following gives." Of each half-edge its follower, the least half-edge of its walk, and the half-edge of greatest angle out of the smallest vertex of
// its walk. A small graph is linked in small tables: less to clear.
pub fn link(
    points: &[i64],
    origins: &[u16],
    carriers: &[i16],
    n: usize,
    e: usize,
    next: &mut [u16],
    lead: &mut [u16],
    top: &mut [u16],
)
    requires fact_1 { Flat points.now origins.now carriers.now n e }
    requires fact_2 { n ≤ overlay_vertices }
    requires fact_3 { e ≤ overlay_edges }
    requires fact_4 { Plane (flat_graph points.now origins.now carriers.now n e) }
    requires fact_5 { (2 * e ≤ length next.old) × (2 * e ≤ length lead.old) × (2 * e ≤ length top.old) }
    ensures { Linked (flat_graph points.now origins.now carriers.now n e) next.old lead.old top.old next.new lead.new top.new }
{
    let g = FlatGraph {
        points,
        origins,
        carriers,
        vertices: n,
        edges: e,
    };
    if is_small(n, e) {
        let mut ways = [0i16; SMALL_HEADING_CELLS];
        let mut out = [0u16; SMALL_VERTICES];
        link_in(g, &mut ways, &mut out, next, lead, top);
    } else {
        let mut ways = [0i16; HEADING_CELLS];
        let mut out = [0u16; VERTICES];
        link_in(g, &mut ways, &mut out, next, lead, top);
    }
}

// The faces, with a table lent for what is known of each walk.
fn enclose_in(
    g: FlatGraph,
    lead: &[u16],
    top: &[u16],
    known: &mut [u16],
    face: &mut [u16],
    leaders: &mut [u16],
    inside: &mut [u16],
) -> usize
    requires fact_1 { Drawn g }
    requires fact_2 { g.edges ≤ overlay_edges }
    requires fact_3 { Plane (graph_of g) }
    requires fact_4 { Led (graph_of g) lead.now top.now }
    requires fact_5 { (2 * g.edges ≤ length known.old) × (2 * g.edges ≤ length face.old) × (2 * g.edges ≤ length leaders.old) × (2 * g.edges < length inside.old) }
    ensures { Numbered (graph_of g.entry) face.old leaders.old inside.old face.new leaders.new inside.new result }
{
    let m = 2 * g.edges;
    let rising = rise(g.points, g.vertices);
    let count = tell(g, rising, lead, top, known, leaders);
    settle(lead, top, known, g.vertices, m, face, inside, count + 1);
    count
}

// "Each outer walk makes one face"; a hole "belongs to the face of the half-edge seen, or to face 0". Of each half-edge its face; the least half-edge of each outer
// walk, and how many there are; of each face its hole walks. A small graph takes a small table.
pub fn enclose(
    points: &[i64],
    origins: &[u16],
    carriers: &[i16],
    n: usize,
    e: usize,
    lead: &[u16],
    top: &[u16],
    face: &mut [u16],
    leaders: &mut [u16],
    inside: &mut [u16],
) -> usize
    requires fact_1 { Flat points.now origins.now carriers.now n e }
    requires fact_2 { e ≤ overlay_edges }
    requires fact_3 { Plane (flat_graph points.now origins.now carriers.now n e) }
    requires fact_4 { Led (flat_graph points.now origins.now carriers.now n e) lead.now top.now }
    requires fact_5 { (2 * e ≤ length face.old) × (2 * e ≤ length leaders.old) × (2 * e < length inside.old) }
    ensures { Numbered (flat_graph points.now origins.now carriers.now n e) face.old leaders.old inside.old face.new leaders.new inside.new result }
{
    let g = FlatGraph {
        points,
        origins,
        carriers,
        vertices: n,
        edges: e,
    };
    if e <= SMALL_EDGES {
        let mut known = [0u16; SMALL_HALVES];
        enclose_in(g, lead, top, &mut known, face, leaders, inside)
    } else {
        let mut known = [0u16; HALVES];
        enclose_in(g, lead, top, &mut known, face, leaders, inside)
    }
}
