// From one stop to the next.
ghost use Rattle.std.specs.Prelude.{◌≡◌};
ghost use Rattle.plane.specs.Bounds.{Near};
ghost use Rattle.plane.specs.Values.{pt_of};
ghost use Rattle.seq.specs.Search.{Steady};
ghost use Rattle.overlay_sweep.specs.Sides.{right_at};
ghost use Rattle.overlay_sweep.specs.Ahead.{Room};
ghost use Rattle.overlay_sweep.specs.Meets.{Meets};
ghost use Rattle.overlay_sweep.specs.Turned.{Ready, Turned};
ghost use Rattle.overlay_sweep.specs.Threading.{Wound, Threading};

use crate::ahead::joined;
use crate::fans::{going_on, starting};
use crate::sheet::{Cut, Sheet};
use crate::splice::splice;
use crate::through::{Through, edges_through, thread};
use plane::Point;

// How many edges the line cuts, how many have started, how many points are known, how many nodes the threads have.
#[derive(Clone, Copy)]
pub struct Line {
    pub cut: usize,
    pub started: usize,
    pub known: usize,
    pub nodes: usize,
}

// The edges `at` p exchanged for those that leave it, and new neighbours tested. The known points are those left in the queue.
// The tables that are written stay parameters: each step writes another two or three of them, so a record that holds `&mut` would be taken apart at each call.
fn exchange(
    sheet: Sheet,
    waits: &[u16],
    status: &mut [u16],
    fan: &mut [u16],
    points: &mut [i64],
    p: Point,
    at: Through,
    line: Line,
) -> Line
    requires fact_1 { Ready sheet.carriers.now sheet.e sheet.starts.now waits.now status.old fan.old line.cut line.started }
    requires fact_2 { Room points.old line.known }
    requires fact_3 { Near (pt_of p) }
    requires fact_4 { Meets sheet.carriers.now sheet.e waits.now status.old (pt_of p) line.cut line.started at.from at.to at.started }
    ensures turned { Turned sheet.entry.carriers.now sheet.entry.e sheet.entry.starts.now (pt_of p) waits.now status.old line.cut line.started points.old line.known status.new result.cut result.started points.new result.known }
    ensures same { (result.started ≡ at.started) × (result.nodes ≡ line.nodes) }
{
    let a = at.from;
    let b = at.to;
    let s = at.started;
    let w = line.started;
    let g = going_on(sheet, status, a, b, p, fan);
    starting(sheet, waits, w, s, fan, g);
    let m = g + (s - w);
    let c = splice(status, line.cut, a, b, fan, m);
    let cut = Cut { sheet, status, c };
    let east = joined(cut, a, a + m, p, points, line.known);
    let known = joined(cut, 0, a, p, points, east);
    Line {
        cut: c,
        started: s,
        known,
        ..line
    }
}

// The line goes on to p, which is vertex v, and for which `guess` edges of the status may be in the west. The known points are those left in the queue; of `room` nodes the threads have `line.nodes`.
// The tables that are written stay parameters, as in `exchange`.
pub fn turn(
    sheet: Sheet,
    waits: &[u16],
    status: &mut [u16],
    fan: &mut [u16],
    points: &mut [i64],
    p: Point,
    guess: usize,
    line: Line,
    last: &mut [u16],
    nodes: &mut [u16],
    room: usize,
    v: u16,
) -> Line
    requires fact_1 { Ready sheet.carriers.now sheet.e sheet.starts.now waits.now status.old fan.old line.cut line.started }
    requires fact_2 { Room points.old line.known }
    requires fact_3 { Near (pt_of p) }
    requires fact_4 { Steady (right_at sheet.carriers.now status.old (pt_of p)) line.cut }
    requires fact_5 { Wound sheet.e room last.old nodes.old line.nodes }
    ensures turned { Turned sheet.entry.carriers.now sheet.entry.e sheet.entry.starts.now (pt_of p) waits.now status.old line.cut line.started points.old line.known status.new result.cut result.started points.new result.known }
    ensures threads { Threading sheet.entry.carriers.now sheet.entry.e room v waits.now status.old (pt_of p) line.cut line.started result.started last.old nodes.old line.nodes last.new nodes.new result.nodes }
{
    let cut = Cut {
        sheet,
        status,
        c: line.cut,
    };
    let at = edges_through(cut, waits, line.started, p, guess);
    let u = thread(
        waits,
        status,
        line.started,
        at,
        last,
        sheet.e,
        nodes,
        room,
        line.nodes,
        v,
    );
    let x = exchange(sheet, waits, status, fan, points, p, at, line);
    Line { nodes: u, ..x }
}
