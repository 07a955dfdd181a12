// Step 1: "a vertex on another is merged into the one of lowest number". A table of the vertex into which each is merged, and one of the ends of all half-edges afterwards.
ghost use Rattle.std.specs.Prelude.{◌≡◌, ◌+◌, ◌*◌, ◌≤◌, ◌<◌, length, get_or};
ghost use Rattle.seq.specs.Seq.{least, filled};
ghost use Rattle.paper.specs.Limits.{map_vertices};
ghost use Rattle.map_check.specs.Parts.{Corners};
ghost use Rattle.mend.specs.Steps.{into_at, now_in};
ghost use Rattle.mend.specs.Keys.{like_in};

use crate::packed::{corner_keys, first_like, seen};
use limits::{MAP_VERTICES, SMALL_VERTICES};
use ovfile::at_or;

// The lowest vertex with the key of vertex v: itself, where none before it has the key.
fn lowest(keys: &[u32], v: u16) -> u16
    requires { v < length keys.now }
    ensures { result ≡ least (like_in keys.now v) v }
{
    let i = v as usize;
    if seen(keys, i) {
        first_like(keys, i) as u16
    } else {
        v
    }
}

// That of each of n vertices.
fn merge_by(keys: &[u32], n: u16, into: &mut [u16])
    requires { (n ≤ length keys.now) × (n ≤ length into.old) }
    ensures { into.new ≡ filled n (λ v. least (like_in keys.now v) v) into.old }
{
    for v in 0..n {
        let i = v as usize;
        into[i] = lowest(keys, v);
    }
}

// The lowest vertex at the point of each of n vertices, with a table lent for the keys.
fn merge_in(points: &[i64], n: u16, keys: &mut [u32], into: &mut [u16])
    requires { Corners points.now n × (n ≤ length keys.old) × (n ≤ length into.old) }
    ensures { into.new ≡ filled n (into_at points.now) into.old }
{
    corner_keys(points, n, keys);
    merge_by(keys, n, into);
}

// The same, with a table of its own. Few vertices take a small one: less to clear.
pub fn merge(points: &[i64], n: u16, into: &mut [u16])
    requires { Corners points.now n × (n ≤ map_vertices) × (n ≤ length into.old) }
    ensures { into.new ≡ filled n (into_at points.now) into.old }
{
    if n as usize <= SMALL_VERTICES {
        let mut keys = [0u32; SMALL_VERTICES];
        merge_in(points, n, &mut keys, into);
    } else {
        let mut keys = [0u32; MAP_VERTICES as usize];
        merge_in(points, n, &mut keys, into);
    }
}

// The vertex that each half-edge of e edges starts from afterwards.
pub fn move_ends(into: &[u16], origins: &[u16], e: u16, ends: &mut [u16])
    requires { 2 * e ≤ length ends.old }
    ensures { ends.new ≡ filled (2 * e) (now_in into.now origins.now) ends.old }
{
    let m = 2 * e as usize;
    for h in 0..m {
        let v = at_or(origins, h, 0) as usize;
        ends[h] = at_or(into, v, 0);
    }
}

// The ends of edge k afterwards.
pub fn from_now(ends: &[u16], k: u16) -> u16
    ensures { result ≡ get_or ends.now (2 * k) 0 }
{
    at_or(ends, 2 * k as usize, 0)
}

pub fn to_now(ends: &[u16], k: u16) -> u16
    ensures { result ≡ get_or ends.now (2 * k + 1) 0 }
{
    at_or(ends, 2 * k as usize + 1, 0)
}
