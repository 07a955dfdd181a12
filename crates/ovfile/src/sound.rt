// Sound edge records: "its lower number is below its upper and both are below the vertex count, a source is not 0, both faces are below the face count, and
// each follower is a half-edge of the file, starts where its half-edge ends, and follows no half-edge of lower number".
ghost use Rattle.std.specs.Prelude.{◌≡◌, [], ◌*◌, ◌<◌, ◌≤◌, set};
ghost use Rattle.paper.specs.Limits.{maps};
ghost use Rattle.paper.specs.Graph.{twin};
ghost use Rattle.paper.specs.Ovfile.{sound_follower, has_source, sound_edge};
ghost use Rattle.tables.specs.Values.{counts_of};
ghost use Rattle.ovfile.specs.Values.{edge_tables};
ghost use Rattle.ovfile.specs.Firsts.{column, FirstPlaces, Followed};

use crate::cells::{at_or, half_cell, source_cell};
use tables::Counts;

// "Half-edge 2k goes from lower to upper, 2k+1 back". Of any number of 32 bits, as a file may hold one; `twin` of graph is of the numbers of a table, so that neither casts.
pub fn twin(h: u32) -> u32
    ensures { result ≡ twin h }
{
    if h % 2 == 0 { h + 1 } else { h - 1 }
}

// Stores a number in a cell, if there is the cell.
pub fn store(t: &mut [u16], i: usize, n: u16)
    ensures { t.new ≡ set t.old i n }
{
    if i < t.len() {
        t[i] = n;
    }
}

// In each cell of `out` the first of n half-edges that has its number as cell j; a cell whose number none has stays. From the last half-edge down, so that
// the first is stored last.
pub fn first_places(halves: &[u16], j: u16, n: u32, out: &mut [u16])
    requires { n ≤ 65536 }
    ensures { FirstPlaces (column halves.now j) n out.old out.new }
{
    for h in (0..n).rev() {
        store(out, half_cell(halves, h, j) as usize, h as u16);
    }
}

// "each follower is a half-edge of the file, starts where its half-edge ends, and follows no half-edge of lower number"
fn sound_follower(edges: u16, halves: &[u16], first: &[u16], h: u32) -> bool
    requires { (h < 2 * edges) × Followed halves.now (2 * edges) first.now }
    ensures { result ≡ sound_follower (record { vertices = 0; edges = edges; faces = 0 }) (edge_tables halves.now []) h }
{
    let f = half_cell(halves, h, 2) as u32;
    f < 2 * edges as u32
        && half_cell(halves, f, 0) == half_cell(halves, twin(h), 0)
        && at_or(first, f as usize, 0) as u32 == h
}

// "a source is not 0"
fn has_source(sources: &[u32], k: u16) -> bool
    ensures { result ≡ has_source maps (edge_tables [] sources.now) k }
{
    source_cell(sources, k, 0) != 0
        || source_cell(sources, k, 1) != 0
        || source_cell(sources, k, 2) != 0
}

// Whether record k of the counted edges is sound.
pub fn sound_edge(c: Counts, halves: &[u16], sources: &[u32], first: &[u16], k: u16) -> bool
    requires { (k < c.edges) × Followed halves.now (2 * c.edges) first.now }
    ensures { result ≡ sound_edge maps (counts_of c) (edge_tables halves.now sources.now) k }
{
    let a = 2 * k as u32;
    let b = a + 1;
    let lower = half_cell(halves, a, 0);
    let upper = half_cell(halves, b, 0);
    let ends = lower < upper && upper < c.vertices;
    let faces = half_cell(halves, a, 4) < c.faces && half_cell(halves, b, 4) < c.faces;
    let followers = sound_follower(c.edges, halves, first, a)
        && sound_follower(c.edges, halves, first, b);
    ends && has_source(sources, k) && faces && followers
}
