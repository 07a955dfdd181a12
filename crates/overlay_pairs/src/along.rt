// Along the walk of a half-edge: labels agree there, so that of a half-edge with a source in the map is read instead of looked for. They agree across an edge that has no source in the map
// too, so that one on the walk of the twin is read where none on the walk has a source.
ghost use Rattle.std.specs.Prelude.{◌≤◌, ◌<◌};
ghost use Rattle.paper.specs.Limits.{maps, absent};
ghost use Rattle.paper.specs.Graph.{twin};
ghost use Rattle.overlay_pairs.specs.Labels.{Walked, Sourced, Beside};

use graph::twin;
use overlay_cut::source_in;

// A half-edge on the walk of half-edge h: from h on the first that has a source in map m; h itself where none has.
fn sourced_along(pieces: &[u16], next: &[u16], m: usize, h: usize) -> usize
    requires fact_1 { m < maps }
    requires fact_2 { Walked next.now pieces.now h }
    ensures { Sourced pieces.now next.now m h result }
{
    let mut x = h;
    for _ in 0..next.len() {
        if 0 < source_in(pieces, x / 2, m) {
            return x;
        }
        x = next[x] as usize;
        if x == h {
            return h;
        }
    }
    h
}

// A half-edge beside half-edge h, so that it has the label of h in map m: on the walk of h, or on that of its twin where h has no source in the map. It has a source there if one on these two walks has.
pub fn sourced_beside(pieces: &[u16], next: &[u16], m: usize, h: usize) -> usize
    requires fact_1 { m < maps }
    requires fact_2 { h ≤ absent }
    requires fact_3 { Walked next.now pieces.now h × Walked next.now pieces.now (twin h) }
    ensures { Beside pieces.now next.now m h result }
{
    let x = sourced_along(pieces, next, m, h);
    if 0 < source_in(pieces, x / 2, m) {
        return x;
    }
    sourced_along(pieces, next, m, twin(h))
}
