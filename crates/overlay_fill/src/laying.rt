// From points and pieces within the room to the lent tables: half-edges, walks, faces, labels; or a refusal, "room comes last".
ghost use Rattle.std.specs.Prelude.{◌≡◌, ◌+◌, ◌*◌, ◌^◌, ◌<◌, ◌≤◌};
ghost use Rattle.paper.specs.Lent.{lengths_of};
ghost use Rattle.map_file.specs.Verdict.{refusal_of};
ghost use Rattle.tables.specs.Values.{tables_by, outcome_of};
ghost use Rattle.overlay_maps.specs.Held.{held_maps};
ghost use Rattle.overlay_maps.specs.Given.{the_layers};
ghost use Rattle.overlay_graph.specs.Cut.{overlay_in};
ghost use Rattle.overlay_graph.specs.Given.{the_cut};
ghost use Rattle.overlay_fill.specs.Judged.{laid_out, refused_with, Ready};

use crate::fill::fill;
use limits::{CARRIER_CELLS, FACE_ROWS, HALVES, SMALL_CARRIER_CELLS, SMALL_EDGES, SMALL_HALVES};
use map_file::Refusal;
use overlay_graph::{Cut, Net, lay_net, walk_net};
use overlay_maps::Layers;
use tables::{Answer, room_in, wipe_all};

// "Refused: all lent tables are zero."
pub fn refuse(
    r: Refusal,
    vertices: &mut [i64],
    halves: &mut [u16],
    sources: &mut [u32],
    faces: &mut [u16],
) -> Answer
    ensures { outcome_of result (tables_by vertices.new halves.new sources.new faces.new) ≡ refused_with (lengths_of (tables_by vertices.old halves.old sources.old faces.old)) (refusal_of r) }
{
    wipe_all(vertices, halves, sources, faces);
    Err(r)
}

// of a small sheet a face for each half-edge, and face 0
const SMALL_ROWS: usize = SMALL_HALVES + 1;

// Half-edges, walks and faces, of points and pieces within the room: the maps' own, or what is left of them (02, Ask 12). More faces than room are refused. They are made in tables of H half-edges, C cells of
// carriers and F faces.
fn from_cut_in<const H: usize, const C: usize, const F: usize>(
    layers: Layers,
    cut: Cut,
    vertices: &mut [i64],
    halves: &mut [u16],
    sources: &mut [u32],
    faces: &mut [u16],
) -> Answer
    requires ready { Ready (the_layers layers) (the_cut cut) (lengths_of (tables_by vertices.old halves.old sources.old faces.old)) }
    requires rooms { (2 * cut.edges ≤ H) × (4 * cut.edges ≤ C) × (2 * cut.edges < F) × (H + C + F < 2 ^ 32) }
    ensures { let ms = held_maps (the_layers layers.entry) in outcome_of result (tables_by vertices.new halves.new sources.new faces.new) ≡ laid_out ms (overlay_in ms (the_cut cut.entry)) (lengths_of (tables_by vertices.old halves.old sources.old faces.old)) }
{
    let mut ends = [0u16; H];
    let mut lines = [0i16; C];
    let mut next = [0u16; H];
    let mut face = [0u16; H];
    let mut outers = [0u16; H];
    let mut holes = [0u16; F];
    lay_net(layers, cut, &mut ends, &mut lines);
    let count = walk_net(
        cut,
        &ends,
        &lines,
        &mut next,
        &mut face,
        &mut outers,
        &mut holes,
    );
    let room = room_in(vertices.len(), halves.len(), sources.len(), faces.len());
    if room.faces as usize <= count {
        let over = Refusal {
            number: 11,
            map: 0,
            place: 3,
            other: 0,
        };
        return refuse(over, vertices, halves, sources, faces);
    }
    let net = Net {
        ends: &ends,
        lines: &lines,
        next: &next,
        face: &face,
        outers: &outers,
        holes: &holes,
        count,
    };
    fill(layers, cut, net, vertices, halves, sources, faces)
}

// The same in tables as large as the overlay may need them, or small ones where these are enough.
pub fn from_cut(
    layers: Layers,
    cut: Cut,
    vertices: &mut [i64],
    halves: &mut [u16],
    sources: &mut [u32],
    faces: &mut [u16],
) -> Answer
    requires { Ready (the_layers layers) (the_cut cut) (lengths_of (tables_by vertices.old halves.old sources.old faces.old)) }
    ensures { let ms = held_maps (the_layers layers.entry) in outcome_of result (tables_by vertices.new halves.new sources.new faces.new) ≡ laid_out ms (overlay_in ms (the_cut cut.entry)) (lengths_of (tables_by vertices.old halves.old sources.old faces.old)) }
{
    if cut.edges <= SMALL_EDGES {
        from_cut_in::<SMALL_HALVES, SMALL_CARRIER_CELLS, SMALL_ROWS>(
            layers, cut, vertices, halves, sources, faces,
        )
    } else {
        from_cut_in::<HALVES, CARRIER_CELLS, FACE_ROWS>(
            layers, cut, vertices, halves, sources, faces,
        )
    }
}
