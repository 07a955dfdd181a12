// The pieces of all edges, in order: put into a table along the threads where the vertices on each edge are remembered, or by tests; then laid.
ghost use Rattle.std.specs.Prelude.{◌≡◌, ◌&&◌, [], ◌+◌, ◌*◌, ◌≤◌, ◌<◌, leb, length};
ghost use Rattle.paper.specs.Limits.{maps};
ghost use Rattle.graph.specs.Flat.{Points};
ghost use Rattle.graph.specs.Small.{small_vertices, small_edges};
ghost use Rattle.overlay_cut.specs.Rooms.{vertex_rows, edge_rows};
ghost use Rattle.overlay_cut.specs.PieceRows.{piece_width, pieces_in};
ghost use Rattle.overlay_cut.specs.Links.{pieced, Linked};
ghost use Rattle.overlay_cut.specs.Cutting.{puts};
ghost use Rattle.overlay_cut.specs.Between.{InRowOrder, Ended};
ghost use Rattle.overlay_cut.specs.Cuts.{start_of, Starts, cut_all};
ghost use Rattle.overlay_cut.specs.Threads.{Spools, ThreadedIf};

use crate::along::thread_all;
use crate::chart::Chart;
use crate::cutting::cut_all;
use crate::laying::lay;
use limits::{
    EDGE_ROWS, PIECE_CELLS, SMALL_EDGE_ROWS, SMALL_PIECE_CELLS, SMALL_VERTICES, VERTEX_ROWS,
};

// Puts in the pieces of all edges: along t nodes if there are fewer than `limit`, or by tests.
// The tables that are written stay parameters: put.rt says why.
fn cut(
    chart: Chart,
    last: &[u16],
    nodes: &[u16],
    limit: usize,
    t: usize,
    rows: &mut [u16],
    links: &mut [u16],
    room: usize,
) -> usize
    requires ended { Ended chart.points.now chart.n chart.carriers.now (start_of chart.starts.now maps) }
    requires fact_1 { Spools (start_of chart.starts.now maps) limit last.now nodes.now × ThreadedIf chart.points.now chart.carriers.now (start_of chart.starts.now maps) last.now nodes.now limit t chart.n }
    requires fact_2 { Linked room rows.old links.old chart.n 0 }
    ensures { Linked room rows.new links.new chart.entry.n result × (pieced rows.new result ≡ puts room [] (cut_all chart.entry.points.now chart.entry.n chart.entry.carriers.now chart.entry.starts.now)) }
{
    if t < limit {
        return thread_all(chart.starts, last, nodes, chart.n, rows, links, room);
    }
    cut_all(chart, rows, links, room)
}

// The pieces of all edges, in order, by way of tables that nothing is put into yet.
// The tables that are written stay parameters: put.rt says why.
fn pieces_in(
    chart: Chart,
    last: &[u16],
    limit: usize,
    t: usize,
    rows: &mut [u16],
    links: &mut [u16],
    room: usize,
    out: &mut [u16],
) -> usize
    requires ended { Ended chart.points.now chart.n chart.carriers.now (start_of chart.starts.now maps) }
    requires fact_1 { Spools (start_of chart.starts.now maps) limit last.now out.old × ThreadedIf chart.points.now chart.carriers.now (start_of chart.starts.now maps) last.now out.old limit t chart.n }
    requires fact_2 { Linked room rows.old links.old chart.n 0 }
    requires fact_3 { piece_width * room ≤ length out.old }
    ensures { pieces_in out.new result ≡ puts room [] (cut_all chart.entry.points.now chart.entry.n chart.entry.carriers.now chart.entry.starts.now) }
{
    let count = cut(chart, last, out, limit, t, rows, links, room);
    lay(rows, links, chart.n, count, out)
}

// Whether small tables have room for the links of n lower ends and for so many pieces.
fn few(n: usize, room: usize) -> bool
    ensures { result ≡ (leb n small_vertices && leb room (small_edges + 1)) }
{
    n <= SMALL_VERTICES && room <= SMALL_EDGE_ROWS
}

// The pieces of all edges, in order: how many there are, or `room` where there are as many or more. If t is less than `limit`, the table that they come into has the t nodes of the
// threads. The tables that they are put into first are made here: as large as the overlay may need them, or small ones where these are enough.
pub fn pieces(
    points: &[i64],
    n: usize,
    carriers: &[i16],
    starts: &[usize],
    last: &[u16],
    limit: usize,
    t: usize,
    room: usize,
    out: &mut [u16],
) -> usize
    requires fact_1 { Points points.now n × (n ≤ vertex_rows) × InRowOrder points.now n }
    requires fact_2 { Starts starts.now carriers.now × Ended points.now n carriers.now (start_of starts.now maps) }
    requires fact_3 { Spools (start_of starts.now maps) limit last.now out.old × ThreadedIf points.now carriers.now (start_of starts.now maps) last.now out.old limit t n }
    requires fact_4 { room ≤ edge_rows }
    requires fact_5 { piece_width * room ≤ length out.old }
    ensures { pieces_in out.new result ≡ puts room [] (cut_all points.now n carriers.now starts.now) }
{
    let chart = Chart {
        points,
        n,
        carriers,
        starts,
    };
    if few(n, room) {
        let mut rows = [0u16; SMALL_PIECE_CELLS];
        let mut links = [0u16; SMALL_VERTICES + SMALL_EDGE_ROWS];
        pieces_in(chart, last, limit, t, &mut rows, &mut links, room, out)
    } else {
        let mut rows = [0u16; PIECE_CELLS];
        let mut links = [0u16; VERTEX_ROWS + EDGE_ROWS];
        pieces_in(chart, last, limit, t, &mut rows, &mut links, room, out)
    }
}
