// Refusal 21: "an edge record is not sound", or "an edge whose source is number 65,535 or with a half-edge whose twin is not the other half-edge of its edge
// or whose predecessor is not a half-edge of the tables that has it as follower".
ghost use Rattle.std.specs.Prelude.{◌≡◌, [], ◌*◌, ◌<◌, ◌≤◌};
ghost use Rattle.seq.specs.Seq.{least};
ghost use Rattle.paper.specs.Limits.{maps, overlay_edges};
ghost use Rattle.paper.specs.Writer.{bad_half, wide_source, bad_edge};
ghost use Rattle.tables.specs.Values.{counts_of};
ghost use Rattle.ovfile.specs.Values.{edge_tables};
ghost use Rattle.ovfile.specs.Firsts.{Followed};

use limits::HALVES;
use ovfile::{first_places, half_cell, sound_edge, source_cell, twin};
use tables::Counts;

// The first number that two bytes do not hold.
const TWO_BYTES: u32 = 65536;

// "a half-edge whose twin is not the other half-edge of its edge or whose predecessor is not a half-edge of the tables that has it as follower"
fn bad_half(edges: u16, halves: &[u16], h: u32) -> bool
    requires { h < 2 * edges }
    ensures { result ≡ bad_half (record { vertices = 0; edges = edges; faces = 0 }) (edge_tables halves.now []) h }
{
    let p = half_cell(halves, h, 3) as u32;
    let other = half_cell(halves, h, 1) as u32 == twin(h);
    let back = half_cell(halves, p, 2) as u32 == h;
    !(other && p < 2 * edges as u32 && back)
}

// "an edge whose source is number 65,535"
fn wide_source(sources: &[u32], k: u16) -> bool
    ensures { result ≡ wide_source maps (edge_tables [] sources.now) k }
{
    TWO_BYTES <= source_cell(sources, k, 0)
        || TWO_BYTES <= source_cell(sources, k, 1)
        || TWO_BYTES <= source_cell(sources, k, 2)
}

// Whether edge k is refused, by a table of the first half-edges with each follower.
fn bad_edge(c: Counts, halves: &[u16], sources: &[u32], first: &[u16], k: u16) -> bool
    requires { (k < c.edges) × Followed halves.now (2 * c.edges) first.now }
    ensures { result ≡ bad_edge maps (counts_of c) (edge_tables halves.now sources.now) k }
{
    let a = 2 * k as u32;
    let b = a + 1;
    !sound_edge(c, halves, sources, first, k)
        || wide_source(sources, k)
        || bad_half(c.edges, halves, a)
        || bad_half(c.edges, halves, b)
}

// The least edge that is refused, or the number of edges.
fn first_bad_edge_by(c: Counts, halves: &[u16], sources: &[u32], first: &[u16]) -> u16
    requires { Followed halves.now (2 * c.edges) first.now }
    ensures { result ≡ least (bad_edge maps (counts_of c) (edge_tables halves.now sources.now)) c.edges }
{
    let n = c.edges;
    for k in 0..n {
        if bad_edge(c, halves, sources, first, k) {
            return k;
        }
    }
    n
}

pub fn first_bad_edge(c: Counts, halves: &[u16], sources: &[u32]) -> u16
    requires { c.edges ≤ overlay_edges }
    ensures { result ≡ least (bad_edge maps (counts_of c) (edge_tables halves.now sources.now)) c.edges }
{
    let mut first = [0u16; HALVES];
    first_places(halves, 2, 2 * c.edges as u32, &mut first);
    first_bad_edge_by(c, halves, sources, &first)
}
