// Rules 8 to 10 of a map in its tables: n vertices, e edges, and rules 5 to 7 find nothing.
ghost use Rattle.std.specs.Prelude.{◌≡◌, ◌*◌, ◌≤◌, length, take};
ghost use Rattle.seq.specs.Seq.{least};
ghost use Rattle.paper.specs.Limits.{map_vertices, map_edges};
ghost use Rattle.paper.specs.Graph.{the_half_count, followers};
ghost use Rattle.paper.specs.Refusal.{first_at, first_of};
ghost use Rattle.paper.specs.Map.{disagrees, net_faults};
ghost use Rattle.laws_graph.specs.Laid.{Laid};
ghost use Rattle.laws_graph.specs.Plane.{Plane};
ghost use Rattle.graph.specs.Given.{Drawn, graph_of};
ghost use Rattle.graph.specs.Upright.{Upright};
ghost use Rattle.graph.specs.Flat.{Carriers};
ghost use Rattle.map_file.specs.Verdict.{verdict};
ghost use Rattle.map_check.specs.Net.{clash_fault_at};
ghost use Rattle.map_check.specs.Held.{flat_map};

use super::edges::{first_clash, first_clashing, first_lonely};
use super::labels::first_disagreeing;
use graph::{FlatGraph, follow_stars, headings, is_small};
use limits::{
    MAP_HALVES, MAP_HEADING_CELLS, MAP_VERTICES, SMALL_HALVES, SMALL_HEADING_CELLS, SMALL_VERTICES,
};
use map_file::{Check, beside, given};

// 8 "an edge shares with another any point that is not an end of both", and "the other edge's number": it comes after the place, and is searched only where there is one.
fn edges_clash(carriers: &[i16], e: usize) -> Check
    requires { Carriers carriers.now e × (e ≤ map_edges) × Upright carriers.now e }
    ensures { verdict result ≡ clash_fault_at carriers.now e }
{
    let k = first_clashing(carriers, e);
    if k < e {
        let j = first_clash(carriers, e, k);
        beside(8, k as u16, j as u16, true)
    } else {
        Ok(())
    }
}

// The least half-edge of a map in tables at which labels disagree, or the number of half-edges: first the headings, then the followers and the half-edge of greatest angle out of each vertex,
// in tables that are lent.
fn first_by_followers_in(
    g: FlatGraph,
    labels: &[u16],
    ways: &mut [i16],
    heads: &mut [u16],
    next: &mut [u16],
) -> usize
    requires fact_1 { Drawn g }
    requires fact_2 { g.edges ≤ map_edges }
    requires fact_3 { 2 * g.edges ≤ length labels.now }
    requires fact_4 { Plane (graph_of g) }
    requires fact_5 { (2 * (2 * g.edges) ≤ length ways.old) × (g.vertices ≤ length heads.old) × (2 * g.edges ≤ length next.old) }
    ensures { result ≡ least (disagrees (flat_map g.entry.points.now g.entry.origins.now g.entry.carriers.now labels.now g.entry.vertices g.entry.edges) (followers (graph_of g.entry))) (2 * g.entry.edges) }
{
    headings(g, ways);
    follow_stars(g.origins, ways, g.vertices, g.edges, heads, next);
    first_disagreeing(g, labels, heads, next)
}

// The same, in tables of its own. A small map takes small ones: less to clear.
fn first_by_followers(g: FlatGraph, labels: &[u16]) -> usize
    requires fact_1 { Drawn g }
    requires fact_2 { g.vertices ≤ map_vertices }
    requires fact_3 { g.edges ≤ map_edges }
    requires fact_4 { 2 * g.edges ≤ length labels.now }
    requires fact_5 { Plane (graph_of g) }
    ensures { result ≡ least (disagrees (flat_map g.entry.points.now g.entry.origins.now g.entry.carriers.now labels.now g.entry.vertices g.entry.edges) (followers (graph_of g.entry))) (2 * g.entry.edges) }
{
    if is_small(g.vertices, g.edges) {
        let mut ways = [0i16; SMALL_HEADING_CELLS];
        let mut heads = [0u16; SMALL_VERTICES];
        let mut next = [0u16; SMALL_HALVES];
        first_by_followers_in(g, labels, &mut ways, &mut heads, &mut next)
    } else {
        let mut ways = [0i16; MAP_HEADING_CELLS];
        let mut heads = [0u16; MAP_VERTICES as usize];
        let mut next = [0u16; MAP_HALVES];
        first_by_followers_in(g, labels, &mut ways, &mut heads, &mut next)
    }
}

// 10 "labels disagree at a half-edge", where rule 8 finds nothing either. The map has the labels of its half-edges, and no more of the table; without an edge there is nothing to make tables for.
fn labels_disagree(g: FlatGraph, labels: &[u16]) -> Check
    requires fact_1 { Drawn g }
    requires fact_2 { g.vertices ≤ map_vertices }
    requires fact_3 { g.edges ≤ map_edges }
    requires fact_4 { 2 * g.edges ≤ length labels.now }
    requires fact_5 { Plane (graph_of g) }
    ensures { verdict result ≡ first_at 10 (disagrees (flat_map g.entry.points.now g.entry.origins.now g.entry.carriers.now (take (2 * g.entry.edges) labels.now) g.entry.vertices g.entry.edges) (followers (graph_of g.entry))) (the_half_count (graph_of g.entry)) }
{
    if g.edges == 0 {
        return Ok(());
    }
    let m = 2 * g.edges;
    let h = first_by_followers(g, &labels[0..m]);
    given(10, h as u16, h < m)
}

// The first of rules 8 to 10 that the map breaks. Followers are made only where rules 8 and 9 find nothing.
pub fn net_fault(g: FlatGraph, labels: &[u16]) -> Check
    requires fact_1 { Drawn g }
    requires fact_2 { g.vertices ≤ map_vertices }
    requires fact_3 { g.edges ≤ map_edges }
    requires fact_4 { 2 * g.edges ≤ length labels.now }
    requires fact_5 { Laid (graph_of g) }
    ensures { verdict result ≡ first_of (net_faults (flat_map g.entry.points.now g.entry.origins.now g.entry.carriers.now (take (2 * g.entry.edges) labels.now) g.entry.vertices g.entry.edges)) }
{
    let eight = edges_clash(g.carriers, g.edges);
    let lonely = first_lonely(g.origins, 2 * g.edges, g.vertices);
    let nine = given(9, lonely as u16, lonely < g.vertices);
    eight.and(nine)?;
    labels_disagree(g, labels)
}
