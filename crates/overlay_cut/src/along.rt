// The same pieces put into a table where the vertices on each edge are remembered: along the threads, with no test.
ghost use Rattle.std.specs.Prelude.{◌≡◌, [], ◌+◌, ◌≤◌, ◌<◌};
ghost use Rattle.paper.specs.Limits.{maps, absent};
ghost use Rattle.overlay_cut.specs.Rooms.{vertex_rows};
ghost use Rattle.overlay_cut.specs.Links.{pieced, Linked};
ghost use Rattle.overlay_cut.specs.Cutting.{puts};
ghost use Rattle.overlay_cut.specs.Cuts.{start_of};
ghost use Rattle.overlay_cut.specs.Threads.{thread, strung, Thread, Strung, thread_map, thread_all, Started};

use crate::cutting::link;
use limits::MAPS;

// Puts in the pieces of edge `number` of map m, whose thread starts at the link x.
// The tables that are written stay parameters: put.rt says why.
fn cut_thread(
    nodes: &[u16],
    x: usize,
    n: usize,
    m: usize,
    number: u16,
    rows: &mut [u16],
    links: &mut [u16],
    count: usize,
    room: usize,
) -> usize
    requires fact_1 { Linked room rows.old links.old n count }
    requires fact_2 { Thread nodes.now x n × (n ≤ vertex_rows) }
    requires fact_3 { m < maps }
    requires fact_4 { number < absent }
    ensures { Linked room rows.new links.new n result × (pieced rows.new result ≡ puts room (pieced rows.old count) (strung m number (thread nodes.now x))) }
{
    let mut total = count;
    let mut next = n;
    // No `for`: the links say where the thread goes on.
    let mut at = x;
    while 0 < at {
        let v = nodes[2 * (at - 1)] as usize;
        total = link(rows, links, total, room, v, next, n, m, number);
        next = v;
        at = nodes[2 * (at - 1) + 1] as usize;
    }
    total
}

// Puts in the pieces of the e edges of map m, whose threads stand from cell `from` on.
// The tables that are written stay parameters: put.rt says why.
fn thread_map(
    last: &[u16],
    nodes: &[u16],
    n: usize,
    from: usize,
    e: usize,
    m: usize,
    rows: &mut [u16],
    links: &mut [u16],
    count: usize,
    room: usize,
) -> usize
    requires fact_1 { Linked room rows.old links.old n count }
    requires fact_2 { Strung (from + e) n last.now nodes.now × (n ≤ vertex_rows) }
    requires fact_3 { m < maps }
    requires fact_4 { e < absent }
    ensures { Linked room rows.new links.new n result × (pieced rows.new result ≡ puts room (pieced rows.old count) (thread_map last.now nodes.now from m e)) }
{
    let mut total = count;
    for k in (0..e).rev() {
        let x = last[from + k] as usize;
        total = cut_thread(nodes, x, n, m, k as u16, rows, links, total, room);
    }
    total
}

// Puts in the pieces of all edges.
// The tables that are written stay parameters: put.rt says why.
pub fn thread_all(
    starts: &[usize],
    last: &[u16],
    nodes: &[u16],
    n: usize,
    rows: &mut [u16],
    links: &mut [u16],
    room: usize,
) -> usize
    requires fact_1 { Started starts.now }
    requires fact_2 { Strung (start_of starts.now maps) n last.now nodes.now × (n ≤ vertex_rows) }
    requires fact_3 { Linked room rows.old links.old n 0 }
    ensures { Linked room rows.new links.new n result × (pieced rows.new result ≡ puts room [] (thread_all last.now nodes.now starts.now)) }
{
    let mut total = 0;
    for m in (0..MAPS).rev() {
        let from = starts[m];
        let e = starts[m + 1] - from;
        total = thread_map(last, nodes, n, from, e, m, rows, links, total, room);
    }
    total
}
