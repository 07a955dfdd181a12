// What is left of an overlay within the room, laid out: its half-edges, walks, faces and labels first, then the edges that separate nothing dropped, and the tables of the rest.
ghost use Rattle.std.specs.Prelude.{◌≡◌, ℕ, ◌+◌, ◌*◌, ◌^◌, ◌<◌, ◌≤◌};
ghost use Rattle.paper.specs.Limits.{maps, overlay_faces};
ghost use Rattle.paper.specs.Lent.{lengths_of, room_in};
ghost use Rattle.paper.specs.Tables.{counts_of, tables_of};
ghost use Rattle.paper.specs.Melt.{melted_of};
ghost use Rattle.tables.specs.Values.{tables_by, outcome_of};
ghost use Rattle.overlay_cut.specs.PieceRows.{piece_width};
ghost use Rattle.overlay_maps.specs.Held.{held_maps};
ghost use Rattle.overlay_maps.specs.Given.{the_layers};
ghost use Rattle.overlay_graph.specs.Cut.{CutOf};
ghost use Rattle.overlay_graph.specs.Given.{the_cut};
ghost use Rattle.overlay_pairs.specs.Pairs.{Outlined};
ghost use Rattle.overlay_fill.specs.Judged.{done_with, Ready, Within};
ghost use Rattle.melt.specs.Melted.{melted_in, FacesIn};

use limits::{
    CARRIER_CELLS, FACE_ROWS, FACES, HALVES, MAPS, PIECE_CELLS, POINT_CELLS, SMALL_CARRIER_CELLS,
    SMALL_EDGES, SMALL_HALVES, SMALL_PIECE_CELLS, SMALL_POINT_CELLS, SMALL_VERTICES,
};
use map_file::Refusal;
use overlay_fill::{from_cut, refuse};
use overlay_graph::{Cut, Net, lay_net, walk_net};
use overlay_maps::Layers;
use overlay_pairs::lay_labels;
use tables::{Answer, room_in};
use thin::thin;

// the labels of every face, a cell for each map
const LABEL_CELLS: usize = MAPS * FACES;
// of a small sheet a face for each half-edge, and face 0; and their labels
const SMALL_ROWS: usize = SMALL_HALVES + 1;

const SMALL_LABELS: usize = MAPS * SMALL_ROWS;

// "Every edge with the same pair on both sides is dropped, then vertices left without an edge, and vertices, edges, followers and faces are numbered afresh by 01's
// rules": of an overlay within the room, with its half-edges, walks and faces. What is left is made in tables of L labels, P cells of points and R cells of pieces.
// The four lent tables stay parameters, as in `melt`, which README.md and docs/ name.
fn melt_faces<const L: usize, const P: usize, const R: usize>(
    layers: Layers,
    cut: Cut,
    net: Net,
    vertices: &mut [i64],
    halves: &mut [u16],
    sources: &mut [u32],
    faces: &mut [u16],
) -> Answer
    requires fact_1 { CutOf (held_maps (the_layers layers)) (the_cut cut) }
    requires fact_2 { Outlined (the_layers layers) (the_cut cut) net.ends.now net.lines.now net.next.now net.outers.now net.count }
    requires fact_3 { FacesIn (held_maps (the_layers layers)) (the_cut cut) net.face.now }
    requires fact_4 { Within (the_cut cut) (lengths_of (tables_by vertices.old halves.old sources.old faces.old)) }
    requires fact_5 { (net.count + 1 ≤ (room_in maps (lengths_of (tables_by vertices.old halves.old sources.old faces.old))).faces) × (maps * (net.count + 1) ≤ L) × (4 * cut.vertices ≤ P) × (piece_width * cut.edges ≤ R) × (L + P + R < 2 ^ 32) }
    ensures { let ms = held_maps (the_layers layers.entry) in outcome_of result (tables_by vertices.new halves.new sources.new faces.new) ≡ done_with (lengths_of (tables_by vertices.old halves.old sources.old faces.old)) (counts_of (melted_of ms)) (tables_of ms (melted_of ms)) }
{
    let mut triples = [0u16; L];
    let mut points = [0i64; P];
    let mut pieces = [0u16; R];
    lay_labels(layers, cut, net, net.count + 1, &mut triples);
    let kept = thin(cut, net.face, &triples, &mut points, &mut pieces);
    let left = Cut {
        vertices: kept.vertices,
        points: &points,
        edges: kept.edges,
        pieces: &pieces,
    };
    from_cut(layers, left, vertices, halves, sources, faces)
}

// Half-edges, walks and faces of the overlay, of vertices and edges within the room; then what is left of it. They are made in tables of H half-edges, C cells of carriers and F faces.
// Up to the faces that are judged it is overlay_fill's from_cut_in: what follows here asks for the maps' own cut (`CutOf`), and a trait's clause cannot leave open which fact an `impl` asks for.
fn melt_cut_in<
    const H: usize,
    const C: usize,
    const F: usize,
    const L: usize,
    const P: usize,
    const R: usize,
>(
    layers: Layers,
    cut: Cut,
    vertices: &mut [i64],
    halves: &mut [u16],
    sources: &mut [u32],
    faces: &mut [u16],
) -> Answer
    requires ready { Ready (the_layers layers) (the_cut cut) (lengths_of (tables_by vertices.old halves.old sources.old faces.old)) }
    requires cut_of { CutOf (held_maps (the_layers layers)) (the_cut cut) }
    requires rooms { (2 * cut.edges ≤ H) × (4 * cut.edges ≤ C) × (2 * cut.edges < F) × ((count : ℕ) → count ≤ H → count + 1 ≤ overlay_faces → maps * (count + 1) ≤ L) × (4 * cut.vertices ≤ P) × (piece_width * cut.edges ≤ R) × (H + C + F + L + P + R < 2 ^ 32) }
    ensures { outcome_of result (tables_by vertices.new halves.new sources.new faces.new) ≡ melted_in (held_maps (the_layers layers.entry)) (lengths_of (tables_by vertices.old halves.old sources.old faces.old)) }
{
    let mut ends = [0u16; H];
    let mut lines = [0i16; C];
    let mut next = [0u16; H];
    let mut face = [0u16; H];
    let mut outers = [0u16; H];
    let mut holes = [0u16; F];
    lay_net(layers, cut, &mut ends, &mut lines);
    let count = walk_net(
        cut,
        &ends,
        &lines,
        &mut next,
        &mut face,
        &mut outers,
        &mut holes,
    );
    let room = room_in(vertices.len(), halves.len(), sources.len(), faces.len());
    if room.faces as usize <= count {
        let over = Refusal {
            number: 11,
            map: 0,
            place: 3,
            other: 0,
        };
        return refuse(over, vertices, halves, sources, faces);
    }
    let net = Net {
        ends: &ends,
        lines: &lines,
        next: &next,
        face: &face,
        outers: &outers,
        holes: &holes,
        count,
    };
    melt_faces::<L, P, R>(layers, cut, net, vertices, halves, sources, faces)
}

// The same in tables as large as any overlay may need them, or small ones where these are enough.
pub fn melt_cut(
    layers: Layers,
    cut: Cut,
    vertices: &mut [i64],
    halves: &mut [u16],
    sources: &mut [u32],
    faces: &mut [u16],
) -> Answer
    requires ready { Ready (the_layers layers) (the_cut cut) (lengths_of (tables_by vertices.old halves.old sources.old faces.old)) }
    requires cut_of { CutOf (held_maps (the_layers layers)) (the_cut cut) }
    ensures { outcome_of result (tables_by vertices.new halves.new sources.new faces.new) ≡ melted_in (held_maps (the_layers layers.entry)) (lengths_of (tables_by vertices.old halves.old sources.old faces.old)) }
{
    if cut.vertices <= SMALL_VERTICES && cut.edges <= SMALL_EDGES {
        melt_cut_in::<
            SMALL_HALVES,
            SMALL_CARRIER_CELLS,
            SMALL_ROWS,
            SMALL_LABELS,
            SMALL_POINT_CELLS,
            SMALL_PIECE_CELLS,
        >(layers, cut, vertices, halves, sources, faces)
    } else {
        melt_cut_in::<HALVES, CARRIER_CELLS, FACE_ROWS, LABEL_CELLS, POINT_CELLS, PIECE_CELLS>(
            layers, cut, vertices, halves, sources, faces,
        )
    }
}
