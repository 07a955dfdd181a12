// Pairs of numbers as one number each, so that two pairs are told apart by one comparison: a vertex's corner, and the ends of an edge whichever way it runs.
ghost use Rattle.std.specs.Prelude.{◌≡◌, ◌≤◌, ◌<◌, length};
ghost use Rattle.seq.specs.Seq.{least, the_some_below, filled};
ghost use Rattle.plane.specs.Bounds.{Corner};
ghost use Rattle.map_check.specs.Parts.{corner_in, Corners};
ghost use Rattle.mend.specs.Keys.{corner_key, pair_key, edge_key, like_in};

use crate::merge::{from_now, to_now};
use ovfile::{twos, vertex_cell};

// Both coordinates of vertex v.
fn corner_key(points: &[i64], v: u16) -> u32
    requires { Corner (corner_in points.now v) }
    ensures { result ≡ corner_key points.now v }
{
    let x = twos(vertex_cell(points, v, 0), 2);
    let y = twos(vertex_cell(points, v, 1), 2);
    (x + 65536 * y) as u32
}

// Those of n vertices.
pub fn corner_keys(points: &[i64], n: u16, keys: &mut [u32])
    requires { Corners points.now n × (n ≤ length keys.old) }
    ensures { keys.new ≡ filled n (corner_key points.now) keys.old }
{
    for v in 0..n {
        let i = v as usize;
        keys[i] = corner_key(points, v);
    }
}

// Two vertices, the lower number first.
fn pair_key(a: u16, b: u16) -> u32
    ensures { result ≡ pair_key a b }
{
    if a <= b {
        65536 * a as u32 + b as u32
    } else {
        65536 * b as u32 + a as u32
    }
}

// The ends of e edges.
pub fn edge_keys(ends: &[u16], e: u16, keys: &mut [u32])
    requires { e ≤ length keys.old }
    ensures { keys.new ≡ filled e (edge_key ends.now) keys.old }
{
    for k in 0..e {
        let i = k as usize;
        keys[i] = pair_key(from_now(ends, k), to_now(ends, k));
    }
}

// Whether an earlier one is the same as number i. All are looked at, with no way out of the loop: that is quick where there is none.
pub fn seen(keys: &[u32], i: usize) -> bool
    requires { i < length keys.now }
    ensures { result ≡ the_some_below (like_in keys.now i) i }
{
    let key = keys[i];
    let mut found = false;
    for j in 0..i {
        found |= key == keys[j];
    }
    found
}

// The least that is the same as number i, or i.
pub fn first_like(keys: &[u32], i: usize) -> usize
    requires { i < length keys.now }
    ensures { result ≡ least (like_in keys.now i) i }
{
    let key = keys[i];
    (0..i).position(|j| key == keys[j]).unwrap_or(i)
}
