// The vertices on each edge, remembered as they are met, from the first on: each edge's thread goes from its last vertex down. A link is the node + 1, or 0.
ghost use Rattle.std.specs.Prelude.{◌≡◌, ◌-◌, ◌*◌, ◌≤◌, ◌<◌, length, eqb};
ghost use Rattle.graph.specs.Flat.{Numbers};
ghost use Rattle.overlay_cut.specs.Threads.{thread, Chains, Spools, heads, named_in, RememberedIf};

// Whether the thread from the link x on starts with v.
fn is_of(nodes: &[u16], x: usize, v: u16) -> bool
    requires { 2 * x ≤ length nodes.now }
    ensures { result ≡ heads v (thread nodes.now x) }
{
    0 < x && nodes[2 * (x - 1)] == v
}

// No record of last, nodes and t: `Chains` fails between the writes of a node and of the link to it, and a record that holds `&mut` keeps its facts at each write.
// Remembers that v is on edge k of e, where that is not remembered yet, with room for so many nodes. Answers how many there are, or `room` where they are no longer kept.
fn remember(
    last: &mut [u16],
    e: usize,
    nodes: &mut [u16],
    room: usize,
    t: usize,
    k: usize,
    v: u16,
) -> usize
    requires fact_1 { Spools e room last.old nodes.old }
    requires fact_2 { (t < room → Chains e last.old nodes.old t) }
    requires fact_3 { t ≤ room }
    requires fact_4 { k < e }
    ensures { RememberedIf e room v (λ j. eqb k j) last.old nodes.old t last.new nodes.new result × (result ≤ room) }
{
    if room <= t + 1 {
        return room;
    }
    let x = last[k];
    if is_of(nodes, x as usize, v) {
        return t;
    }
    nodes[2 * t] = v;
    nodes[2 * t + 1] = x;
    last[k] = (t + 1) as u16;
    t + 1
}

// The same of the edges in the cells from `from` to `to`.
// last, nodes and t stay parameters, as in `remember`.
pub fn remember_all(
    cells: &[u16],
    from: usize,
    to: usize,
    last: &mut [u16],
    e: usize,
    nodes: &mut [u16],
    room: usize,
    t: usize,
    v: u16,
) -> usize
    requires fact_1 { Numbers cells.now to e × (from ≤ to) }
    requires fact_2 { Spools e room last.old nodes.old }
    requires fact_3 { (t < room → Chains e last.old nodes.old t) }
    requires fact_4 { t ≤ room }
    ensures { RememberedIf e room v (named_in cells.now from (to - from)) last.old nodes.old t last.new nodes.new result × (result ≤ room) }
{
    let mut n = t;
    for i in from..to {
        let k = cells[i] as usize;
        n = remember(last, e, nodes, room, n, k, v);
    }
    n
}
