// "A face holds the pair of its least outer half-edge", with three maps its triple (02, Ask 13): the labels of all faces in every map.
ghost use Rattle.std.specs.Prelude.{◌≡◌, ℕ, ◌*◌, ◌-◌, ◌≤◌, ◌<◌, length, get_or};
ghost use Rattle.seq.specs.Seq.{filled};
ghost use Rattle.paper.specs.Limits.{maps};
ghost use Rattle.plane.specs.Values.{vec_of};
ghost use Rattle.plane.specs.Bounds.{Direction};
ghost use Rattle.graph.specs.Flat.{carrier_at, Carried};
ghost use Rattle.overlay_maps.specs.Given.{the_layers};
ghost use Rattle.overlay_maps.specs.Held.{Held, held_map};
ghost use Rattle.overlay_pairs.specs.Labels.{half_label, face_label, label_cell, edges_of, Placed, PlaceIs, Labelled, Readable};

use crate::along::sourced_beside;
use graph::{carrier_at, start};
use limits::MAPS;
use overlay_cut::source_in;
use overlay_graph::{Cut, Net};
use overlay_maps::{Layers, Place, label_at, own_at, part_of};
use plane::Vector;

// The upward direction of edge k.
fn upward(lines: &[i16], k: usize) -> Vector
    requires { Carried lines.now k }
    ensures is { vec_of result ≡ (carrier_at lines.now k).up }
    ensures near { Direction (vec_of result) }
{
    let s = carrier_at(lines, k);
    Vector { x: s.u, y: s.v }
}

// The least outer half-edge of face f, which is not face 0.
pub fn outer_of(outers: &[u16], f: usize) -> u16
    requires { (0 < f) × (f ≤ length outers.now) }
    ensures { result ≡ get_or outers.now (f - 1) 0 }
{
    outers[f - 1]
}

// Where half-edge h lies: the lower end of its edge, the edge's upward direction, and its source in map m.
fn place_of(cut: Cut, net: Net, m: usize, h: usize) -> Place
    requires { Placed cut.points.now net.ends.now net.lines.now cut.pieces.now m h }
    ensures { PlaceIs cut.entry.points.now net.entry.ends.now net.entry.lines.now cut.entry.pieces.now m h result }
{
    let k = h / 2;
    Place {
        half: h,
        source: source_in(cut.pieces, k, m),
        low: start(cut.points, net.ends, 2 * k),
        up: upward(net.lines, k),
    }
}

// The label of half-edge x in map m: that of its source, where it has one, and otherwise of what is seen looking west.
fn half_label(layers: Layers, cut: Cut, net: Net, x: usize, m: usize) -> u16
    requires fact_1 { Held (the_layers layers) }
    requires fact_2 { Labelled cut.points.now net.ends.now net.lines.now cut.pieces.now m (edges_of layers.edges.now m) x }
    ensures { result ≡ half_label (held_map (the_layers layers.entry) m) cut.entry.points.now net.entry.ends.now net.entry.lines.now cut.entry.pieces.now m x }
{
    let part = part_of(layers, m);
    let source = source_in(cut.pieces, x / 2, m);
    if source == 0 {
        let at = place_of(cut, net, m, x);
        return label_at(layers, part, at);
    }
    own_at(layers, part, x, source as usize - 1)
}

// The label of face f in map m: "Face 0 is the outside, pair (0, 0)", in a map with no edges all is outside, and another face has the label of its least outer half-edge.
fn face_label(layers: Layers, cut: Cut, net: Net, f: usize, m: usize) -> u16
    requires fact_1 { Held (the_layers layers) }
    requires fact_2 { m < maps }
    requires fact_3 { Readable (the_layers layers) cut.points.now net.ends.now net.lines.now cut.pieces.now net.next.now net.outers.now m f }
    ensures { result ≡ face_label (held_map (the_layers layers.entry) m) cut.entry.points.now net.entry.ends.now net.entry.lines.now cut.entry.pieces.now m net.entry.outers.now f }
{
    if f == 0 {
        return 0;
    }
    if layers.edges[m] == layers.edges[m + 1] {
        return 0;
    }
    let h = outer_of(net.outers, f) as usize;
    let x = sourced_beside(cut.pieces, net.next, m, h);
    half_label(layers, cut, net, x, m)
}

// The labels of the first n faces, a row for each face and in it a cell for each map.
pub fn lay_labels(layers: Layers, cut: Cut, net: Net, n: usize, out: &mut [u16])
    requires fact_1 { Held (the_layers layers) }
    requires fact_2 { (m f : ℕ) → m < maps → f < n → Readable (the_layers layers) cut.points.now net.ends.now net.lines.now cut.pieces.now net.next.now net.outers.now m f }
    requires fact_3 { maps * n ≤ length out.old }
    ensures { out.new ≡ filled (maps * n) (label_cell (the_layers layers.entry) cut.entry.points.now net.entry.ends.now net.entry.lines.now cut.entry.pieces.now net.entry.outers.now) out.old }
{
    let cells = MAPS * n;
    for j in 0..cells {
        out[j] = face_label(layers, cut, net, j / MAPS, j % MAPS);
    }
}
