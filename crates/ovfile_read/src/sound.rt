// Sound edge records, by the fields that a file stores: "its lower number is below its upper and both are below the vertex count, a source is not 0, both faces are below the face count, and
// each follower is a half-edge of the file, starts where its half-edge ends, and follows no half-edge of lower number". No table is kept but that of the half-edges that follow one so far.
ghost use Rattle.std.specs.Prelude.{◌≡◌, not, ◌+◌, ◌*◌, ◌<◌, ◌≤◌, ◌^◌};
ghost use Rattle.seq.specs.Seq.{least};
ghost use Rattle.paper.specs.Limits.{maps};
ghost use Rattle.paper.specs.Graph.{twin};
ghost use Rattle.paper.specs.Ovfile.{sound_follower, has_source, sound_edge};
ghost use Rattle.paper.specs.Reader.{counts_in, stored_origin, stored_follower, tables_in};
ghost use Rattle.ovfile.specs.Values.{layout_from};
ghost use Rattle.ovfile_read.specs.Starts.{Taken};

use crate::stored::Stored;
use limits::{HALVES, MAPS, SMALL_EDGES, SMALL_HALVES};
use ovfile::{at_or, store};

// "each follower is a half-edge of the file, starts where its half-edge ends, and follows no half-edge of lower number": of half-edge h of n, which ends at a vertex and is then among those of
// lower number.
fn sound_follower(stored: &Stored, h: u32, end: u16, taken: &mut [u16]) -> bool
    requires { (h < 2 * (counts_in stored.now.file.now).edges) × (end ≡ stored_origin (layout_from stored.now.layout) stored.now.file.now (twin h)) × Taken (stored_follower (layout_from stored.now.layout) stored.now.file.now) (2 * (counts_in stored.now.file.now).edges) h taken.old }
    ensures { (result ≡ sound_follower (counts_in stored.now.file.now) (tables_in maps (layout_from stored.now.layout) stored.now.file.now) h) × Taken (stored_follower (layout_from stored.now.layout) stored.now.file.now) (2 * (counts_in stored.now.file.now).edges) (h + 1) taken.new }
{
    let f = stored.follower(h);
    let fresh = at_or(taken, f as usize, 0) == 0;
    store(taken, f as usize, 1);
    let starts = stored.origin(f as u32);
    let known = (f as u32) < 2 * stored.counts.edges as u32;
    // `&`, since all three are known here: a follower is noted as taken whatever else holds.
    known & ((starts == end) & fresh)
}

// "a source is not 0"
fn has_source(stored: &Stored, k: u32) -> bool
    requires { k < (counts_in stored.now.file.now).edges }
    ensures { result ≡ has_source maps (tables_in maps (layout_from stored.now.layout) stored.now.file.now) k }
{
    (0..MAPS as u32).any(|i| stored.source(k, i) != 0)
}

// Whether record k is sound, where those before it are passed.
fn sound_edge(stored: &Stored, k: u32, taken: &mut [u16]) -> bool
    requires { (k < (counts_in stored.now.file.now).edges) × Taken (stored_follower (layout_from stored.now.layout) stored.now.file.now) (2 * (counts_in stored.now.file.now).edges) (2 * k) taken.old }
    ensures { (result ≡ sound_edge maps (counts_in stored.now.file.now) (tables_in maps (layout_from stored.now.layout) stored.now.file.now) k) × Taken (stored_follower (layout_from stored.now.layout) stored.now.file.now) (2 * (counts_in stored.now.file.now).edges) (2 * k + 1 + 1) taken.new }
{
    let a = 2 * k;
    let b = a + 1;
    let c = stored.counts;
    let lower = stored.origin(a);
    let upper = stored.origin(b);
    let ends = (lower < upper) & (upper < c.vertices);
    let left = stored.face(a);
    let right = stored.face(b);
    let faces = (left < c.faces) & (right < c.faces);
    let source = has_source(stored, k);
    let forth = sound_follower(stored, a, upper, taken);
    let back = sound_follower(stored, b, lower, taken);
    // `&`, since all of them are known here: the next record needs both followers noted, whatever this one is.
    ends & (source & (faces & (forth & back)))
}

// The least record that is not sound, or the number of edges.
fn unsound_by(stored: &Stored, taken: &mut [u16]) -> u16
    requires { Taken (stored_follower (layout_from stored.now.layout) stored.now.file.now) (2 * (counts_in stored.now.file.now).edges) 0 taken.old }
    ensures { result ≡ least (λ k. not (sound_edge maps (counts_in stored.now.file.now) (tables_in maps (layout_from stored.now.layout) stored.now.file.now) k)) (counts_in stored.now.file.now).edges }
{
    let n = stored.counts.edges;
    for k in 0..n {
        if !sound_edge(stored, k as u32, taken) {
            return k;
        }
    }
    n
}

// The same by a table of N half-edges.
fn unsound_of<const N: usize>(stored: &Stored) -> u16
    requires { (2 * (counts_in stored.now.file.now).edges ≤ N) × (N < 2 ^ 32) }
    ensures { result ≡ least (λ k. not (sound_edge maps (counts_in stored.now.file.now) (tables_in maps (layout_from stored.now.layout) stored.now.file.now) k)) (counts_in stored.now.file.now).edges }
{
    let mut taken = [0u16; N];
    unsound_by(stored, &mut taken)
}

// The same, by a small table where the edges are few.
pub fn unsound(stored: &Stored) -> u16
    ensures { result ≡ least (λ k. not (sound_edge maps (counts_in stored.now.file.now) (tables_in maps (layout_from stored.now.layout) stored.now.file.now) k)) (counts_in stored.now.file.now).edges }
{
    if stored.counts.edges as usize <= SMALL_EDGES {
        unsound_of::<SMALL_HALVES>(stored)
    } else {
        unsound_of::<HALVES>(stored)
    }
}
