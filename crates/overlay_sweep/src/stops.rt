// All stops of the line.
ghost use Rattle.std.specs.Prelude.{◌+◌, ◌*◌, ◌≤◌, length};
ghost use Rattle.paper.specs.Limits.{maps};
ghost use Rattle.overlay_cut.specs.Cuts.{start_of};
ghost use Rattle.overlay_sweep.specs.Threading.{Unthreaded};
ghost use Rattle.overlay_sweep.specs.Loop.{Given, Begun, SweptTo};

use crate::corners::corners_in;
use crate::sheet::Sheet;
use crate::slots::by_lower_end;
use crate::turn::{Line, turn};
use graph::point_at;
use limits::{MAP_EDGES, MAPS, POINT_CELLS, POINT_WIDTH, VERTEX_ROWS};
use seq::store;

// The edges of all maps, at most.
const EDGES: usize = MAPS * MAP_EDGES as usize;

// How many stops there are, or VERTEX_ROWS where there are more than the overlay may have; and how many nodes the threads have, or as many as there may be where they are not kept.
// No Option: SweptTo and ThreadedIf state both by number, up to what there is room for.
#[derive(Clone, Copy)]
pub struct Swept {
    pub stops: usize,
    pub nodes: usize,
}

// What is told of the place of the point in row n in the status. Nothing rests on it.
fn guess_at(points: &[i64], n: usize) -> usize
    requires { 4 * n + 4 ≤ length points.now }
{
    points[POINT_WIDTH * n + 3].unsigned_abs() as usize
}

// All stops, from the first on. The corners stand in the first k of `rows`, and the first `known` of `points` are the queue.
// The tables that are written stay parameters: turn.rt says why.
fn all_turns(
    sheet: Sheet,
    rows: &[i64],
    k: usize,
    waits: &[u16],
    status: &mut [u16],
    fan: &mut [u16],
    points: &mut [i64],
    out: &mut [i64],
    known: usize,
    last: &mut [u16],
    nodes: &mut [u16],
    room: usize,
) -> Swept
    requires fact_1 { Begun sheet.carriers.now sheet.e sheet.starts.now rows.now k waits.now status.old fan.old points.old out.old known }
    requires fact_2 { Unthreaded sheet.e room last.old nodes.old }
    ensures { SweptTo sheet.entry.carriers.now sheet.entry.e sheet.entry.starts.now rows.now k room out.new result.stops last.new nodes.new result.nodes }
{
    let mut line = Line {
        cut: 0,
        started: 0,
        known,
        nodes: 0,
    };
    // No `for`: at a stop more points become known.
    let mut i = 0;
    while 0 < line.known {
        if VERTEX_ROWS <= line.known + i {
            return Swept {
                stops: VERTEX_ROWS,
                nodes: room,
            };
        }
        let left = line.known - 1;
        let p = point_at(points, left);
        let g = guess_at(points, left);
        store(out, i, [p.x, p.y, p.d, 0]);
        let l = Line {
            known: left,
            ..line
        };
        line = turn(
            sheet, waits, status, fan, points, p, g, l, last, nodes, room, i as u16,
        );
        i += 1;
    }
    Swept {
        stops: i,
        nodes: line.nodes,
    }
}

// The corners and the crossings in point order, each once, and the vertices on each edge as threads, while there are fewer than `room` nodes. The corners stand in the first k of
// `rows`; `starts` has where each map's edges start among the carriers, and after the last where they end.
pub fn sweep(
    rows: &[i64],
    k: usize,
    carriers: &[i16],
    starts: &[usize],
    out: &mut [i64],
    last: &mut [u16],
    nodes: &mut [u16],
    room: usize,
) -> Swept
    requires fact_1 { Given carriers.now (start_of starts.now maps) starts.now rows.now k out.old }
    requires fact_2 { Unthreaded (start_of starts.now maps) room last.old nodes.old }
    ensures { SweptTo carriers.now (start_of starts.now maps) starts.now rows.now k room out.new result.stops last.new nodes.new result.nodes }
{
    let sheet = Sheet {
        carriers,
        e: starts[MAPS],
        starts,
    };
    let mut waits = [0u16; EDGES];
    let mut status = [0u16; EDGES];
    let mut fan = [0u16; EDGES];
    let mut points = [0i64; POINT_CELLS];
    by_lower_end(sheet, &mut waits);
    let n = corners_in(rows, k, &mut points);
    all_turns(
        sheet,
        rows,
        k,
        &waits,
        &mut status,
        &mut fan,
        &mut points,
        out,
        n,
        last,
        nodes,
        room,
    )
}
