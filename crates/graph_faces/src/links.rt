// Followers and walks, in tables that are lent.
ghost use Rattle.std.specs.Prelude.{◌≡◌, ◌*◌, ◌≤◌, length};
ghost use Rattle.std.proofs.Math.Option.{get_or};
ghost use Rattle.seq.specs.Seq.{filled};
ghost use Rattle.seq.specs.Filled.{Holds};
ghost use Rattle.paper.specs.Limits.{overlay_edges, absent};
ghost use Rattle.paper.specs.Graph.{greatest_out};
ghost use Rattle.paper.specs.Faces.{walks_of, lead_at};
ghost use Rattle.laws_graph.specs.Plane.{Plane};
ghost use Rattle.graph.specs.Given.{Drawn, graph_of};
ghost use Rattle.graph.specs.Rising.{RisesIf};
ghost use Rattle.graph_faces.specs.Linked.{Linked};
ghost use Rattle.graph_faces.specs.Walked.{top_of};

use super::walks::{climb, leads, lows, tops, tops_by_leads};
use graph::{FlatGraph, follow_stars, headings_by, rise};
use limits::HALVES;

// The half-edge of greatest angle out of the smallest vertex of the walk of every half-edge, from the least half-edge of each walk and the half-edge of greatest angle out of each vertex. The edges of an overlay climb;
// of others the smallest vertex of each walk is sought.
fn tops_of(g: FlatGraph, rising: bool, lead: &[u16], greatest: &[u16], top: &mut [u16])
    requires fact_1 { Drawn g }
    requires fact_2 { (g.edges ≤ overlay_edges) × (2 * g.edges ≤ length top.old) }
    requires fact_3 { Plane (graph_of g) }
    requires fact_4 { RisesIf rising g.points.now g.vertices }
    requires fact_5 { Holds (lead_at (walks_of (graph_of g))) lead.now (2 * g.edges) × Holds (λ v. get_or (greatest_out (graph_of g) v) absent) greatest.now g.vertices }
    ensures { top.new ≡ filled (2 * g.entry.edges) (top_of (graph_of g.entry)) top.old }
{
    let m = 2 * g.edges;
    if climb(g.origins, g.edges, rising) {
        tops_by_leads(g.origins, lead, greatest, m, top);
    } else {
        let mut low = [0u16; HALVES];
        lows(g.points, g.origins, g.vertices, rising, lead, m, &mut low);
        tops(g.origins, lead, &low, greatest, m, top);
    }
}

// What `link` answers, by way of the heading of each half-edge and the half-edge of greatest angle out of each vertex.
pub fn link_in(
    g: FlatGraph,
    ways: &mut [i16],
    out: &mut [u16],
    next: &mut [u16],
    lead: &mut [u16],
    top: &mut [u16],
)
    requires fact_1 { Drawn g }
    requires fact_2 { g.edges ≤ overlay_edges }
    requires fact_3 { Plane (graph_of g) }
    requires fact_4 { (2 * (2 * g.edges) ≤ length ways.old) × (g.vertices ≤ length out.old) }
    requires fact_5 { (2 * g.edges ≤ length next.old) × (2 * g.edges ≤ length lead.old) × (2 * g.edges ≤ length top.old) }
    ensures { Linked (graph_of g.entry) next.old lead.old top.old next.new lead.new top.new }
{
    let m = 2 * g.edges;
    let rising = rise(g.points, g.vertices);
    headings_by(g, rising, ways);
    follow_stars(g.origins, ways, g.vertices, g.edges, out, next);
    leads(next, m, lead);
    tops_of(g, rising, lead, out, top);
}
