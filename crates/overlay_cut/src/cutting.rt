// "Edges are the pieces of input edges between neighbouring overlay vertices on them": each edge's pieces put into a table with room for so many, from the last map, edge and
// vertex down, so that each turn does what the definition does. Which vertices are on an edge is tested.
ghost use Rattle.std.specs.Prelude.{◌≡◌, [], ◌+◌, ◌≤◌, ◌<◌};
ghost use Rattle.paper.specs.Limits.{maps, absent};
ghost use Rattle.paper.specs.Pieces.{only, links_from};
ghost use Rattle.plane.specs.Bounds.{Edge};
ghost use Rattle.plane.specs.Values.{seg_of};
ghost use Rattle.graph.specs.Flat.{Points, Carriers};
ghost use Rattle.overlay_cut.specs.Rooms.{vertex_rows};
ghost use Rattle.overlay_cut.specs.Links.{pieced, Linked};
ghost use Rattle.overlay_cut.specs.Cutting.{puts, upper};
ghost use Rattle.overlay_cut.specs.Between.{InRowOrder, EndsIn, Ended};
ghost use Rattle.overlay_cut.specs.Cuts.{start_of, Starts, cut_edge, cut_map, cut_all};

use crate::between::{on_line, place};
use crate::chart::Chart;
use crate::put::put;
use graph::{carrier_at, point_at};
use limits::MAPS;
use plane::Seg;

// Puts in the piece from v to the vertex above it, where there is one: `next` is n where there is none.
// The tables that are written stay parameters: put.rt says why.
pub fn link(
    rows: &mut [u16],
    links: &mut [u16],
    count: usize,
    room: usize,
    v: usize,
    next: usize,
    n: usize,
    m: usize,
    number: u16,
) -> usize
    requires fact_1 { Linked room rows.old links.old n count }
    requires fact_2 { v < n }
    requires fact_3 { n ≤ vertex_rows }
    requires fact_4 { m < maps }
    requires fact_5 { number < absent }
    ensures { Linked room rows.new links.new n result × (pieced rows.new result ≡ puts room (pieced rows.old count) (links_from (only maps m number) v (upper n next))) }
{
    if n <= next {
        return count;
    }
    put(
        rows,
        links,
        n,
        count,
        room,
        v as u16,
        next as u16,
        m,
        number,
    )
}

// Puts in the pieces of the edge s, which is edge `number` of map m: its ends stand in the table, and of the rows from one to the other those on its line are on it.
// The tables that are written stay parameters: put.rt says why.
fn cut_edge(
    chart: Chart,
    s: Seg,
    m: usize,
    number: u16,
    rows: &mut [u16],
    links: &mut [u16],
    count: usize,
    room: usize,
) -> usize
    requires fact_1 { Linked room rows.old links.old chart.n count }
    requires fact_2 { Edge (seg_of s) × EndsIn chart.points.now chart.n (seg_of s) }
    requires fact_3 { m < maps }
    requires fact_4 { number < absent }
    ensures { Linked room rows.new links.new chart.entry.n result × (pieced rows.new result ≡ puts room (pieced rows.old count) (cut_edge chart.entry.points.now chart.entry.n (seg_of s) m number)) }
{
    let first = place(chart.points, chart.n, s.foot());
    let top = place(chart.points, chart.n, s.head());
    let mut total = count;
    let mut next = chart.n;
    for v in (first..top + 1).rev() {
        if on_line(s, point_at(chart.points, v)) {
            total = link(rows, links, total, room, v, next, chart.n, m, number);
            next = v;
        }
    }
    total
}

// Puts in the pieces of the e edges of map m, whose carriers stand from row `from` on.
// The tables that are written stay parameters: put.rt says why.
fn cut_map(
    chart: Chart,
    from: usize,
    e: usize,
    m: usize,
    rows: &mut [u16],
    links: &mut [u16],
    count: usize,
    room: usize,
) -> usize
    requires fact_1 { Linked room rows.old links.old chart.n count }
    requires fact_2 { Carriers chart.carriers.now (from + e) × Ended chart.points.now chart.n chart.carriers.now (from + e) }
    requires fact_3 { m < maps }
    requires fact_4 { e < absent }
    ensures { Linked room rows.new links.new chart.entry.n result × (pieced rows.new result ≡ puts room (pieced rows.old count) (cut_map chart.entry.points.now chart.entry.n chart.entry.carriers.now from m e)) }
{
    let mut total = count;
    for k in (0..e).rev() {
        let s = carrier_at(chart.carriers, from + k);
        total = cut_edge(chart, s, m, k as u16, rows, links, total, room);
    }
    total
}

// Puts in the pieces of all edges.
pub fn cut_all(chart: Chart, rows: &mut [u16], links: &mut [u16], room: usize) -> usize
    requires ended { Ended chart.points.now chart.n chart.carriers.now (start_of chart.starts.now maps) }
    requires linked { Linked room rows.old links.old chart.n 0 }
    ensures { Linked room rows.new links.new chart.entry.n result × (pieced rows.new result ≡ puts room [] (cut_all chart.entry.points.now chart.entry.n chart.entry.carriers.now chart.entry.starts.now)) }
{
    let mut total = 0;
    for m in (0..MAPS).rev() {
        let from = chart.starts[m];
        let e = chart.starts[m + 1] - from;
        total = cut_map(chart, from, e, m, rows, links, total, room);
    }
    total
}
