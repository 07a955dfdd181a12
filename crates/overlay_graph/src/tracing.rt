// Half-edges, walks and faces.
ghost use Rattle.std.specs.Prelude.{◌*◌, ◌^◌, ◌≤◌, ◌<◌, length};
ghost use Rattle.paper.specs.Limits.{overlay_vertices, overlay_edges};
ghost use Rattle.laws_graph.specs.Plane.{Plane};
ghost use Rattle.graph.specs.Flat.{Flat, flat_graph};
ghost use Rattle.graph_faces.specs.Linked.{faces_of};
ghost use Rattle.overlay_maps.specs.Held.{held_maps, Held};
ghost use Rattle.overlay_maps.specs.Given.{the_layers};
ghost use Rattle.overlay_graph.specs.Cut.{overlay_in, DrawableCut};
ghost use Rattle.overlay_graph.specs.Given.{the_cut};
ghost use Rattle.overlay_graph.specs.Traced.{NetBy, FacesOver};

use crate::cutting::Cut;
use graph_faces::{enclose, link};
use limits::{HALVES, SMALL_EDGES, SMALL_HALVES};
use overlay_cut::{carriers as lay_carriers, origins as lay_origins};
use overlay_maps::Layers;

// The half-edges, walks and faces of an overlay: where each half-edge starts and what its edge lies along, its follower and its face; the least half-edge of each outer walk, how many of them there are, and
// the count of hole walks of each face.
#[derive(Clone, Copy)]
pub struct Net<'a> {
    pub ends: &'a [u16],
    pub lines: &'a [i16],
    pub next: &'a [u16],
    pub face: &'a [u16],
    pub outers: &'a [u16],
    pub holes: &'a [u16],
    pub count: usize,
}

// The half-edges of the overlay of the points and pieces in these tables: where each starts, "Half-edge 2k goes from lower to upper, 2k+1 back", and the input edge that each edge
// lies along.
pub fn lay_net(layers: Layers, cut: Cut, ends: &mut [u16], lines: &mut [i16])
    requires fact_1 { Held (the_layers layers) }
    requires fact_2 { DrawableCut (held_maps (the_layers layers)) (the_cut cut) }
    requires fact_3 { (2 * cut.edges ≤ length ends.old) × (4 * cut.edges ≤ length lines.old) }
    ensures { NetBy (overlay_in (held_maps (the_layers layers.entry)) (the_cut cut.entry)) (the_cut cut.entry) ends.new lines.new }
{
    lay_origins(cut.pieces, cut.edges, ends);
    lay_carriers(cut.pieces, cut.edges, layers.edges, layers.carriers, lines);
}

// The followers and the faces, by two tables of its own, of N cells each.
fn walk_in<const N: usize>(
    cut: Cut,
    ends: &[u16],
    lines: &[i16],
    next: &mut [u16],
    face: &mut [u16],
    outers: &mut [u16],
    holes: &mut [u16],
) -> usize
    requires fact_1 { Flat cut.points.now ends.now lines.now cut.vertices cut.edges }
    requires fact_2 { (cut.vertices ≤ overlay_vertices) × (cut.edges ≤ overlay_edges) }
    requires fact_3 { Plane (flat_graph cut.points.now ends.now lines.now cut.vertices cut.edges) }
    requires fact_4 { (2 * cut.edges ≤ length next.old) × (2 * cut.edges ≤ length face.old) × (2 * cut.edges ≤ length outers.old) × (2 * cut.edges < length holes.old) }
    requires fact_5 { (2 * cut.edges ≤ N) × (N < 2 ^ 32) }
    ensures { FacesOver (faces_of (flat_graph cut.entry.points.now ends.now lines.now cut.entry.vertices cut.entry.edges)) next.old face.old outers.old holes.old next.new face.new outers.new holes.new result }
{
    let mut lead = [0u16; N];
    let mut top = [0u16; N];
    let Cut {
        vertices,
        points,
        edges,
        ..
    } = cut;
    link(
        points, ends, lines, vertices, edges, next, &mut lead, &mut top,
    );
    enclose(
        points, ends, lines, vertices, edges, &lead, &top, face, outers, holes,
    )
}

// The followers, and the faces: of each half-edge, the least half-edges of the outer walks and how many there are, and the hole walks of each face. A small sheet is walked in small tables: less to clear.
// What is written goes table by table, since a `Net` is lent to read only: a struct of `&mut` would stand for a moment in which its facts do not hold.
pub fn walk_net(
    cut: Cut,
    ends: &[u16],
    lines: &[i16],
    next: &mut [u16],
    face: &mut [u16],
    outers: &mut [u16],
    holes: &mut [u16],
) -> usize
    requires fact_1 { Flat cut.points.now ends.now lines.now cut.vertices cut.edges }
    requires fact_2 { (cut.vertices ≤ overlay_vertices) × (cut.edges ≤ overlay_edges) }
    requires fact_3 { Plane (flat_graph cut.points.now ends.now lines.now cut.vertices cut.edges) }
    requires fact_4 { (2 * cut.edges ≤ length next.old) × (2 * cut.edges ≤ length face.old) × (2 * cut.edges ≤ length outers.old) × (2 * cut.edges < length holes.old) }
    ensures { FacesOver (faces_of (flat_graph cut.entry.points.now ends.now lines.now cut.entry.vertices cut.entry.edges)) next.old face.old outers.old holes.old next.new face.new outers.new holes.new result }
{
    if cut.edges <= SMALL_EDGES {
        walk_in::<SMALL_HALVES>(cut, ends, lines, next, face, outers, holes)
    } else {
        walk_in::<HALVES>(cut, ends, lines, next, face, outers, holes)
    }
}
