// The step that drops each vertex and each edge, or 0, worked out once into two tables.
ghost use Rattle.std.specs.Prelude.{◌≡◌, ◌+◌, ◌*◌, ◌≤◌, ◌<◌, length, get_or, set};
ghost use Rattle.seq.specs.Seq.{cond, the_some_below, filled};
ghost use Rattle.seq.specs.Filled.{Holds};
ghost use Rattle.paper.specs.Limits.{map_edges};
ghost use Rattle.mend.specs.Keys.{like_in};
ghost use Rattle.mend.specs.Steps.{merged_in, shrunk_in, repeated_in, edge_step, step_is, has_in, vertex_step};

use crate::merge::{from_now, to_now};
use crate::packed::{edge_keys, seen};
use limits::{MAP_EDGES, SMALL_EDGES};
use ovfile::{at_or, store};

// Vertex or edge i is dropped in this step.
pub fn is_step(steps: &[u16], step: u16, i: u16) -> bool
    requires { i < length steps.now }
    ensures { result ≡ step_is steps.now step i }
{
    let at = i as usize;
    steps[at] == step
}

// ── edges ──

// 2 "an edge whose ends are now the same"
fn shrunk(ends: &[u16], k: u16) -> bool
    ensures { result ≡ shrunk_in ends.now k }
{
    from_now(ends, k) == to_now(ends, k)
}

// 2, or 3 "an edge that joins the same two vertices as an earlier one", or 0.
fn edge_step(ends: &[u16], keys: &[u32], k: u16) -> u16
    requires { k < length keys.now }
    ensures { result ≡ edge_step (shrunk_in ends.now k) (the_some_below (like_in keys.now k) k) }
{
    if shrunk(ends, k) {
        2
    } else if seen(keys, k as usize) {
        3
    } else {
        0
    }
}

// The step of each of e edges, by their keys.
fn edge_steps_by(ends: &[u16], keys: &[u32], e: u16, steps: &mut [u16])
    requires { (e ≤ length keys.now) × (e ≤ length steps.old) }
    ensures { steps.new ≡ filled e (λ k. edge_step (shrunk_in ends.now k) (the_some_below (like_in keys.now k) k)) steps.old }
{
    for k in 0..e {
        let i = k as usize;
        steps[i] = edge_step(ends, keys, k);
    }
}

// That of each of e edges, with a table lent for the keys.
fn edge_steps_in(ends: &[u16], e: u16, keys: &mut [u32], steps: &mut [u16])
    requires { (e ≤ length keys.old) × (e ≤ length steps.old) }
    ensures { steps.new ≡ filled e (λ k. edge_step (shrunk_in ends.now k) (repeated_in ends.now k)) steps.old }
{
    edge_keys(ends, e, keys);
    edge_steps_by(ends, keys, e, steps);
}

// The same, with a table of its own. Few edges take a small one: less to clear.
pub fn edge_steps(ends: &[u16], e: u16, steps: &mut [u16])
    requires { (e ≤ map_edges) × (e ≤ length steps.old) }
    ensures { steps.new ≡ filled e (λ k. edge_step (shrunk_in ends.now k) (repeated_in ends.now k)) steps.old }
{
    if e as usize <= SMALL_EDGES {
        let mut keys = [0u32; SMALL_EDGES];
        edge_steps_in(ends, e, &mut keys, steps);
    } else {
        let mut keys = [0u32; MAP_EDGES as usize];
        edge_steps_in(ends, e, &mut keys, steps);
    }
}

// ── vertices ──

// 1: v lies on a vertex of lower number; otherwise 4, as long as no edge is found.
fn without_edge(into: &[u16], v: u16) -> u16
    ensures { result ≡ cond (merged_in into.now v) 1 4 }
{
    if at_or(into, v as usize, 0) < v { 1 } else { 4 }
}

// That of each of n vertices.
fn without_edges(into: &[u16], n: u16, steps: &mut [u16])
    requires { n ≤ length steps.old }
    ensures { steps.new ≡ filled n (λ v. cond (merged_in into.now v) 1 4) steps.old }
{
    for v in 0..n {
        let i = v as usize;
        steps[i] = without_edge(into, v);
    }
}

// Keeps both ends of edge k.
fn keep_ends(ends: &[u16], k: u16, steps: &mut [u16])
    ensures { steps.new ≡ set (set steps.old (get_or ends.now (2 * k) 0) 0) (get_or ends.now (2 * k + 1) 0) 0 }
{
    store(steps, from_now(ends, k) as usize, 0);
    store(steps, to_now(ends, k) as usize, 0);
}

// 4 "a vertex without an edge": what an edge that is kept ends at is kept too.
fn keep_all_ends(ends: &[u16], dropped: &[u16], e: u16, steps: &mut [u16])
    requires { e ≤ length dropped.now }
    ensures { Holds (λ v. cond (has_in ends.now dropped.now e v) 0 (get_or steps.old v 0)) steps.new (length steps.old) }
{
    for k in 0..e {
        if is_step(dropped, 0, k) {
            keep_ends(ends, k, steps);
        }
    }
}

// The step of each of n vertices, where those of e edges are known.
pub fn vertex_steps(into: &[u16], ends: &[u16], dropped: &[u16], n: u16, e: u16, steps: &mut [u16])
    requires { (e ≤ length dropped.now) × (n ≤ length steps.old) }
    ensures { Holds (λ v. vertex_step (has_in ends.now dropped.now e v) (merged_in into.now v)) steps.new n }
{
    without_edges(into, n, steps);
    keep_all_ends(ends, dropped, e, steps);
}
