// The rows of the faces: "A face holds the pair of its least outer half-edge, that number (65,535 for face 0), and its count of hole walks"; "pairs
// become triples" (02, Ask 13).
ghost use Rattle.std.specs.Prelude.{◌≡◌, ◌+◌, ◌*◌, ◌≤◌, length, get_or};
ghost use Rattle.seq.specs.Seq.{rows, filled};
ghost use Rattle.paper.specs.Limits.{maps};
ghost use Rattle.tables.specs.Rows.{face_by};
ghost use Rattle.overlay_maps.specs.Given.{the_layers};
ghost use Rattle.overlay_graph.specs.Given.{the_cut};
ghost use Rattle.overlay_pairs.specs.Labels.{outer_of};
ghost use Rattle.overlay_pairs.specs.Pairs.{Whole, face_rows};

use crate::label::{lay_labels, outer_of};
use limits::ABSENT;
use overlay_graph::{Cut, Net};
use overlay_maps::Layers;

// The least outer half-edge of face f; ABSENT of face 0.
fn face_outer(outers: &[u16], f: usize) -> u16
    requires { f ≤ length outers.now }
    ensures { result ≡ outer_of outers.now f }
{
    if f == 0 {
        return ABSENT;
    }
    outer_of(outers, f)
}

// Those of the first n faces.
fn lay_outers(outers: &[u16], n: usize, out: &mut [u16])
    requires fact_1 { n ≤ length outers.now + 1 }
    requires fact_2 { n ≤ length out.old }
    ensures { out.new ≡ filled n (outer_of outers.now) out.old }
{
    for f in 0..n {
        out[f] = face_outer(outers, f);
    }
}

// The counts of hole walks of the first n faces.
fn lay_holes(holes: &[u16], n: usize, out: &mut [u16])
    requires fact_1 { n ≤ length holes.now }
    requires fact_2 { n ≤ length out.old }
    ensures { out.new ≡ filled n (λ f. get_or holes.now f 0) out.old }
{
    out[..n].copy_from_slice(&holes[..n]);
}

// The row of every face of the overlay of the maps that the layers hold: its labels, a cell for each map, and two columns.
pub fn rows_in(
    layers: Layers,
    cut: Cut,
    net: Net,
    triples: &mut [u16],
    outer: &mut [u16],
    counts: &mut [u16],
)
    requires fact_1 { Whole (the_layers layers) (the_cut cut) net.ends.now net.lines.now net.next.now net.outers.now net.holes.now net.count }
    requires fact_2 { (maps * (net.count + 1) ≤ length triples.old) × (net.count + 1 ≤ length outer.old) × (net.count + 1 ≤ length counts.old) }
    ensures { rows (face_by triples.new outer.new counts.new) (net.entry.count + 1) ≡ face_rows (the_layers layers.entry) (the_cut cut.entry) (net.entry.count + 1) }
{
    let n = net.count + 1;
    lay_labels(layers, cut, net, n, triples);
    lay_outers(net.outers, n, outer);
    lay_holes(net.holes, n, counts);
}
