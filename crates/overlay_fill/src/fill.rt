// The lent tables filled from what the stages hold, zeros past the counts.
ghost use Rattle.std.specs.Prelude.{◌≡◌, ◌+◌, ◌*◌, ◌^◌, ◌≤◌, ◌<◌};
ghost use Rattle.paper.specs.Limits.{maps};
ghost use Rattle.paper.specs.Tables.{counts_of, tables_of};
ghost use Rattle.paper.specs.Lent.{lengths_of, room_in};
ghost use Rattle.tables.specs.Values.{tables_by, outcome_of};
ghost use Rattle.overlay_maps.specs.Held.{held_maps};
ghost use Rattle.overlay_maps.specs.Given.{the_layers};
ghost use Rattle.overlay_graph.specs.Cut.{overlay_in};
ghost use Rattle.overlay_graph.specs.Given.{the_cut, NetOf};
ghost use Rattle.overlay_fill.specs.Judged.{done_with, Ready};

use graph::first_places;
use limits::{
    ABSENT, FACES, HALVES, MAPS, SMALL_EDGES, SMALL_FACES, SMALL_HALVES, SMALL_VERTICES, VERTICES,
};
use overlay_graph::{Cut, Net};
use overlay_maps::Layers;
use overlay_pairs::rows_in;
use tables::{Answer, Counts, store_faces, store_halves, store_sources, store_vertices};

// the labels of every face, a cell for each map
const LABEL_CELLS: usize = MAPS * FACES;

// of a small sheet
const SMALL_LABELS: usize = MAPS * SMALL_FACES;

// What is within the room is stored: "Done: places past the counts are zero". Predecessors, least outgoing half-edges and the labels and columns of the faces are made here, in tables of H half-edges, V
// vertices, L labels and F faces.
fn fill_in<const H: usize, const V: usize, const L: usize, const F: usize>(
    layers: Layers,
    cut: Cut,
    net: Net,
    vertices: &mut [i64],
    halves: &mut [u16],
    sources: &mut [u32],
    faces: &mut [u16],
) -> Answer
    requires ready { Ready (the_layers layers) (the_cut cut) (lengths_of (tables_by vertices.old halves.old sources.old faces.old)) }
    requires traced { NetOf (overlay_in (held_maps (the_layers layers)) (the_cut cut)) (the_cut cut) net }
    requires rooms { (net.count + 1 ≤ (room_in maps (lengths_of (tables_by vertices.old halves.old sources.old faces.old))).faces) × (2 * cut.edges ≤ H) × (cut.vertices ≤ V) × (maps * (net.count + 1) ≤ L) × (net.count + 1 ≤ F) × (H + V + L + F < 2 ^ 32) }
    ensures { let ms = held_maps (the_layers layers.entry) in let o = overlay_in ms (the_cut cut.entry) in outcome_of result (tables_by vertices.new halves.new sources.new faces.new) ≡ done_with (lengths_of (tables_by vertices.old halves.old sources.old faces.old)) (counts_of o) (tables_of ms o) }
{
    let mut prev = [0u16; H];
    let mut least = [0u16; V];
    let mut triples = [0u16; L];
    let mut outer = [0u16; F];
    let mut counts = [0u16; F];
    first_places(net.next, 2 * cut.edges, ABSENT, &mut prev, 2 * cut.edges);
    first_places(net.ends, 2 * cut.edges, ABSENT, &mut least, cut.vertices);
    rows_in(layers, cut, net, &mut triples, &mut outer, &mut counts);
    let v = cut.vertices as u16;
    let e = cut.edges as u16;
    let f = (net.count + 1) as u16;
    store_vertices(vertices, v, cut.points, &least);
    store_halves(halves, e, net.ends, net.next, &prev, net.face);
    store_sources(sources, e, cut.pieces);
    store_faces(faces, f, &triples, &outer, &counts);
    Ok(Counts {
        vertices: v,
        edges: e,
        faces: f,
    })
}

// The same in tables as large as the overlay may need them, or small ones where these are enough.
// The four lent tables stay parameters: stages.rt says why.
pub fn fill(
    layers: Layers,
    cut: Cut,
    net: Net,
    vertices: &mut [i64],
    halves: &mut [u16],
    sources: &mut [u32],
    faces: &mut [u16],
) -> Answer
    requires ready { Ready (the_layers layers) (the_cut cut) (lengths_of (tables_by vertices.old halves.old sources.old faces.old)) }
    requires traced { NetOf (overlay_in (held_maps (the_layers layers)) (the_cut cut)) (the_cut cut) net }
    requires rooms { net.count + 1 ≤ (room_in maps (lengths_of (tables_by vertices.old halves.old sources.old faces.old))).faces }
    ensures { let ms = held_maps (the_layers layers.entry) in let o = overlay_in ms (the_cut cut.entry) in outcome_of result (tables_by vertices.new halves.new sources.new faces.new) ≡ done_with (lengths_of (tables_by vertices.old halves.old sources.old faces.old)) (counts_of o) (tables_of ms o) }
{
    if cut.vertices <= SMALL_VERTICES && cut.edges <= SMALL_EDGES && net.count < SMALL_FACES {
        fill_in::<SMALL_HALVES, SMALL_VERTICES, SMALL_LABELS, SMALL_FACES>(
            layers, cut, net, vertices, halves, sources, faces,
        )
    } else {
        fill_in::<HALVES, VERTICES, LABEL_CELLS, FACES>(
            layers, cut, net, vertices, halves, sources, faces,
        )
    }
}
