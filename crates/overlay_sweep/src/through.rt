// The edges through a stop.
ghost use Rattle.std.specs.Prelude.{◌≤◌};
ghost use Rattle.seq.specs.Search.{Steady};
ghost use Rattle.plane.specs.Bounds.{Near};
ghost use Rattle.plane.specs.Values.{pt_of};
ghost use Rattle.graph.specs.Flat.{Numbers};
ghost use Rattle.overlay_cut.specs.Threads.{RememberedIf};
ghost use Rattle.overlay_sweep.specs.Sides.{right_at};
ghost use Rattle.overlay_sweep.specs.Meets.{Meets};
ghost use Rattle.overlay_sweep.specs.Threading.{at_stop, Wound};

use crate::fans::start_to;
use crate::search::{through_to, west_of};
use crate::sheet::Cut;
use overlay_cut::remember_all;
use plane::Point;

// Those that the line cuts stand in the cells `from` to `to` of the status; those that start at the stop wait in the cells up to `started`.
#[derive(Clone, Copy)]
pub struct Through {
    pub from: usize,
    pub to: usize,
    pub started: usize,
}

// The edges through the next stop p, for which `guess` edges of the status may be in the west. The line cuts c edges, and w have started.
pub fn edges_through(cut: Cut, waits: &[u16], w: usize, p: Point, guess: usize) -> Through
    requires fact_1 { Numbers waits.now cut.sheet.e cut.sheet.e × (w ≤ cut.sheet.e) }
    requires fact_2 { Near (pt_of p) }
    requires fact_3 { Steady (right_at cut.sheet.carriers.now cut.status.now (pt_of p)) cut.c }
    ensures { Meets cut.entry.sheet.carriers.now cut.entry.sheet.e waits.now cut.entry.status.now (pt_of p) cut.entry.c w result.from result.to result.started }
{
    let from = west_of(cut, p, guess);
    let to = through_to(cut, from, p);
    let started = start_to(cut.sheet, waits, w, p);
    Through { from, to, started }
}

// Remembers that vertex v is on the edges `at` it. Answers how many nodes there are, or `room` where they are no longer kept.
// last, nodes and t stay parameters: threads.rt of overlay_cut says why.
pub fn thread(
    waits: &[u16],
    status: &[u16],
    w: usize,
    at: Through,
    last: &mut [u16],
    e: usize,
    nodes: &mut [u16],
    room: usize,
    t: usize,
    v: u16,
) -> usize
    requires fact_1 { Numbers waits.now at.started e × (w ≤ at.started) }
    requires fact_2 { Numbers status.now at.to e × (at.from ≤ at.to) }
    requires fact_3 { Wound e room last.old nodes.old t }
    ensures { RememberedIf e room v (at_stop status.now at.from at.to waits.now w at.started) last.old nodes.old t last.new nodes.new result × (result ≤ room) }
{
    let u = remember_all(status, at.from, at.to, last, e, nodes, room, t, v);
    remember_all(waits, w, at.started, last, e, nodes, room, u, v)
}
