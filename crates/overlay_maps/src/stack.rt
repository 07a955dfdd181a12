// All maps in one set of tables, one after the other, with where each map's vertices and edges start.
ghost use Rattle.std.specs.Prelude.{◌≡◌, [], ◌∷◌, ◌<◌, length};
ghost use Rattle.std.proofs.Math.Option.{none};
ghost use Rattle.seq.specs.Seq.{over};
ghost use Rattle.paper.specs.Limits.{maps};
ghost use Rattle.paper.specs.Refusal.{first_of, the_of_map};
ghost use Rattle.paper.specs.Map.{vertex_count, edges_in, fault};
ghost use Rattle.paper.specs.Overlay.{map_faults};
ghost use Rattle.paper.specs.Sample.{empty_file};
ghost use Rattle.map_file.specs.Verdict.{verdict};
ghost use Rattle.map_check.specs.Answer.{answer_of};
ghost use Rattle.overlay_maps.specs.Refused.{refused_in};
ghost use Rattle.overlay_maps.specs.Layers.{layers_by, RoomFrom, LaidFrom, starts, Stacked, Layered, StackRoom, LayerRoom};

use limits::{CARRIER_WIDTH, MAP_HEAD, POINT_WIDTH};
use map_check::{Checked, lay_map};
use map_file::{Check, Refusal, edge_count, vertex_count};

// The file of the empty map: mark, version 1, no vertices, no edges. "The two-map overlay is the one with an empty third map" (02, Ask 13)
pub const EMPTY: [u8; MAP_HEAD] = [90, 77, 80, 1, 0, 0, 0, 0, 0];

// Its bytes are those of the empty map in the definitions.
pub fn empty() -> [u8; MAP_HEAD]
    ensures { result ≡ empty_file }
{
    EMPTY
}

// The refusal of a check, if there is one, of a map of this number.
fn of_map(map: u16, c: Checked) -> Check
    ensures { verdict result ≡ the_of_map map (refused_in (answer_of c)) }
{
    match c {
        Err(r) => Err(Refusal {
            number: r.number,
            map,
            place: r.place,
            other: r.other,
        }),
        Ok(_) => Ok(()),
    }
}

// The tables that maps are laid in are lent one by one, here and below: a function that takes a struct of `&mut` has to ensure that each field lends on what it lent, so it is no plainer.

// The map of one more file, behind v vertices and e edges; it is the map of this number.
fn lay_behind(
    file: &[u8],
    map: u16,
    v: usize,
    e: usize,
    corners: &mut [i64],
    origins: &mut [u16],
    carriers: &mut [i16],
    labels: &mut [u16],
) -> Check
    requires { RoomFrom file.now v e corners.old origins.old carriers.old labels.old }
    ensures { (verdict result ≡ the_of_map map (fault file.now)) × (fault file.now ≡ none → LaidFrom file.now v e corners.old origins.old carriers.old labels.old corners.new origins.new carriers.new labels.new) }
{
    let at = POINT_WIDTH * v;
    let foot = CARRIER_WIDTH * e;
    let first = 2 * e;
    let c = lay_map(
        file,
        &mut corners[at..],
        &mut origins[first..],
        &mut carriers[foot..],
        &mut labels[first..],
    );
    of_map(map, c)
}

// "The first map is checked wholly, then the second."
fn lay_pair(
    zones: &[u8],
    blocks: &[u8],
    corners: &mut [i64],
    origins: &mut [u16],
    carriers: &mut [i16],
    labels: &mut [u16],
) -> Check
    requires { StackRoom (zones.now ∷ blocks.now ∷ []) corners.old origins.old carriers.old labels.old }
    ensures { (verdict result ≡ first_of (map_faults (zones.now ∷ blocks.now ∷ []))) × (first_of (map_faults (zones.now ∷ blocks.now ∷ [])) ≡ none → Stacked (zones.now ∷ blocks.now ∷ []) corners.old origins.old carriers.old labels.old corners.new origins.new carriers.new labels.new) }
{
    let c = lay_behind(zones, 1, 0, 0, corners, origins, carriers, labels);
    match c {
        Err(_) => c,
        Ok(()) => {
            let v = vertex_count(zones) as usize;
            let e = edge_count(zones) as usize;
            lay_behind(blocks, 2, v, e, corners, origins, carriers, labels)
        }
    }
}

// "the third map is checked last of the maps" (02, Ask 13)
fn lay_tables(
    zones: &[u8],
    blocks: &[u8],
    bed: &[u8],
    corners: &mut [i64],
    origins: &mut [u16],
    carriers: &mut [i16],
    labels: &mut [u16],
) -> Check
    requires { StackRoom (zones.now ∷ blocks.now ∷ bed.now ∷ []) corners.old origins.old carriers.old labels.old }
    ensures { (verdict result ≡ first_of (map_faults (zones.now ∷ blocks.now ∷ bed.now ∷ []))) × (first_of (map_faults (zones.now ∷ blocks.now ∷ bed.now ∷ [])) ≡ none → Stacked (zones.now ∷ blocks.now ∷ bed.now ∷ []) corners.old origins.old carriers.old labels.old corners.new origins.new carriers.new labels.new) }
{
    let c = lay_pair(zones, blocks, corners, origins, carriers, labels);
    match c {
        Err(_) => c,
        Ok(()) => {
            let v = vertex_count(zones) as usize + vertex_count(blocks) as usize;
            let e = edge_count(zones) as usize + edge_count(blocks) as usize;
            lay_behind(bed, 3, v, e, corners, origins, carriers, labels)
        }
    }
}

// Where each map's vertices and edges start, and where the last ends.
fn lay_starts(zones: &[u8], blocks: &[u8], bed: &[u8], vertices: &mut [usize], edges: &mut [usize])
    requires { (maps < length vertices.old) × (maps < length edges.old) }
    ensures { (vertices.new ≡ over (starts vertex_count 0 (zones.now ∷ blocks.now ∷ bed.now ∷ [])) vertices.old) × (edges.new ≡ over (starts edges_in 0 (zones.now ∷ blocks.now ∷ bed.now ∷ [])) edges.old) }
{
    let v = vertex_count(zones) as usize;
    let w = v + vertex_count(blocks) as usize;
    let e = edge_count(zones) as usize;
    let f = e + edge_count(blocks) as usize;
    vertices[0] = 0;
    vertices[1] = v;
    vertices[2] = w;
    vertices[3] = w + vertex_count(bed) as usize;
    edges[0] = 0;
    edges[1] = e;
    edges[2] = f;
    edges[3] = f + edge_count(bed) as usize;
}

// The maps of three files of any bytes, checked, and where all pass in the tables, one after the other.
pub fn lay_maps(
    zones: &[u8],
    blocks: &[u8],
    bed: &[u8],
    vertices: &mut [usize],
    edges: &mut [usize],
    corners: &mut [i64],
    origins: &mut [u16],
    carriers: &mut [i16],
    labels: &mut [u16],
) -> Check
    requires { LayerRoom (zones.now ∷ blocks.now ∷ bed.now ∷ []) (layers_by vertices.old edges.old corners.old origins.old carriers.old labels.old) }
    ensures { (verdict result ≡ first_of (map_faults (zones.now ∷ blocks.now ∷ bed.now ∷ []))) × (first_of (map_faults (zones.now ∷ blocks.now ∷ bed.now ∷ [])) ≡ none → Layered (zones.now ∷ blocks.now ∷ bed.now ∷ []) (layers_by vertices.old edges.old corners.old origins.old carriers.old labels.old) (layers_by vertices.new edges.new corners.new origins.new carriers.new labels.new)) }
{
    lay_starts(zones, blocks, bed, vertices, edges);
    lay_tables(zones, blocks, bed, corners, origins, carriers, labels)
}
