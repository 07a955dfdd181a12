// The overlay's graph in tables, from the table of pieces.
ghost use Rattle.std.specs.Prelude.{◌≡◌, ◌+◌, ◌*◌, ◌^◌, ◌≤◌, ◌<◌, length};
ghost use Rattle.seq.specs.Seq.{laid};
ghost use Rattle.paper.specs.Limits.{maps};
ghost use Rattle.plane.specs.Bounds.{Edge};
ghost use Rattle.plane.specs.Values.{seg_of};
ghost use Rattle.overlay_cut.specs.PieceRows.{piece_width};
ghost use Rattle.overlay_cut.specs.Cuts.{Starts};
ghost use Rattle.overlay_cut.specs.Net.{ends_of, the_source_in, first_map, the_edge_in, carrier_in, no_seg, seg_row};

use graph::{carrier_at, store_carrier};
use limits::{MAPS, PIECE_SOURCES, PIECE_WIDTH};
use plane::Seg;

// Of e edges the origins of both half-edges: the lower end, and the upper.
pub fn origins(pieces: &[u16], e: usize, out: &mut [u16])
    requires fact_1 { piece_width * e ≤ length pieces.now }
    requires fact_2 { 2 * e ≤ length out.old }
    ensures { out.new ≡ laid e (ends_of pieces.now) out.old }
{
    for k in 0..e {
        let at = PIECE_WIDTH * k;
        let half = 2 * k;
        out[half] = pieces[at];
        out[half + 1] = pieces[at + 1];
    }
}

// What the piece in row k has for map m: its source + 1 or 0.
pub fn source_in(pieces: &[u16], k: usize, m: usize) -> u16
    requires fact_1 { piece_width * k + piece_width ≤ length pieces.now }
    requires fact_2 { m < maps }
    ensures { result ≡ the_source_in pieces.now k m }
{
    pieces[PIECE_WIDTH * k + PIECE_SOURCES + m]
}

// The first map that the piece in row k comes from, or MAPS.
fn first_map(pieces: &[u16], k: usize) -> usize
    requires { piece_width * k + piece_width ≤ length pieces.now }
    ensures { result ≡ first_map pieces.now k }
{
    (0..MAPS)
        .position(|m| 0 < source_in(pieces, k, m))
        .unwrap_or(MAPS)
}

// No edge.
fn nothing() -> Seg
    ensures is { seg_of result ≡ no_seg }
    ensures near { Edge (seg_of result) }
{
    Seg {
        x: 0,
        y: 0,
        u: 0,
        v: 0,
    }
}

// Edge j of map m, where it has one.
fn edge_in(starts: &[usize], carriers: &[i16], m: usize, j: usize) -> Seg
    requires fact_1 { Starts starts.now carriers.now }
    requires fact_2 { m < maps }
    requires fact_3 { j < 2 ^ 16 }
    ensures is { seg_of result ≡ the_edge_in carriers.now starts.now m j }
    ensures near { Edge (seg_of result) }
{
    let row = starts[m] + j;
    if row < starts[m + 1] {
        carrier_at(carriers, row)
    } else {
        nothing()
    }
}

// The input edge that the piece in row k lies along: of the first map that it comes from.
fn carrier_of(pieces: &[u16], k: usize, starts: &[usize], carriers: &[i16]) -> Seg
    requires fact_1 { piece_width * k + piece_width ≤ length pieces.now }
    requires fact_2 { Starts starts.now carriers.now }
    ensures is { seg_of result ≡ carrier_in pieces.now carriers.now starts.now k }
    ensures near { Edge (seg_of result) }
{
    let m = first_map(pieces, k);
    if MAPS <= m {
        return nothing();
    }
    edge_in(starts, carriers, m, source_in(pieces, k, m) as usize - 1)
}

// Of e edges the carriers.
pub fn carriers(pieces: &[u16], e: usize, starts: &[usize], carriers: &[i16], out: &mut [i16])
    requires fact_1 { piece_width * e ≤ length pieces.now }
    requires fact_2 { Starts starts.now carriers.now }
    requires fact_3 { 4 * e ≤ length out.old }
    ensures { out.new ≡ laid e (λ k. seg_row (carrier_in pieces.now carriers.now starts.now k)) out.old }
{
    for k in 0..e {
        store_carrier(out, k, carrier_of(pieces, k, starts, carriers));
    }
}
