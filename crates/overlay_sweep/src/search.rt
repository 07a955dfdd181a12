// Where in the status a point stands. The status holds edge numbers from west to east; along it the sides of the next stop rise, so that a search by halves finds
// the first edge that does not have it on its right.
ghost use Rattle.std.specs.Prelude.{◌≡◌, true, ◌≤◌, ◌<◌};
ghost use Rattle.plane.specs.Bounds.{Near};
ghost use Rattle.plane.specs.Values.{pt_of};
ghost use Rattle.seq.specs.Search.{Steady, Stop, ScanStop};
ghost use Rattle.overlay_sweep.specs.Sides.{right_at, on_at};

use crate::sheet::Cut;
use graph::carrier_at;
use plane::{Point, left_by};

// Whether the edge in cell i of the status has p on its right.
fn is_right(cut: Cut, i: usize, p: Point) -> bool
    requires fact_1 { i < cut.c }
    requires fact_2 { Near (pt_of p) }
    ensures { result ≡ right_at cut.entry.sheet.carriers.now cut.entry.status.now (pt_of p) i }
{
    let k = cut.status[i] as usize;
    let s = carrier_at(cut.sheet.carriers, k);
    left_by(s, p) < 0
}

// Whether the first g edges of the status, some and not all, are those that have p on their right: by the two edges there.
fn parts_at(cut: Cut, p: Point, g: usize) -> bool
    requires fact_1 { Near (pt_of p) }
    requires fact_2 { Steady (right_at cut.sheet.carriers.now cut.status.now (pt_of p)) cut.c }
    ensures { result ≡ true → Stop (right_at cut.entry.sheet.carriers.now cut.entry.status.now (pt_of p)) cut.entry.c g }
{
    if g == 0 || cut.c <= g {
        return false;
    }
    is_right(cut, g - 1, p) && !is_right(cut, g, p)
}

// How many of the first n edges of the status have p on their right: as many as is guessed, if that is so, or by halves.
pub fn west_of(cut: Cut, p: Point, guess: usize) -> usize
    requires fact_1 { Near (pt_of p) }
    requires fact_2 { Steady (right_at cut.sheet.carriers.now cut.status.now (pt_of p)) cut.c }
    ensures { Stop (right_at cut.entry.sheet.carriers.now cut.entry.status.now (pt_of p)) cut.entry.c result }
{
    if parts_at(cut, p, guess) {
        return guess;
    }
    // Not `partition_point`: it asks for a test of every number, and only edges below e have carriers.
    let mut a = 0;
    let mut b = cut.c;
    while a < b {
        let m = a + (b - a) / 2;
        if is_right(cut, m, p) {
            a = m + 1;
        } else {
            b = m;
        }
    }
    a
}

// Whether it goes through p.
fn is_on(cut: Cut, i: usize, p: Point) -> bool
    requires fact_1 { i < cut.c }
    requires fact_2 { Near (pt_of p) }
    ensures { result ≡ on_at cut.entry.sheet.carriers.now cut.entry.status.now (pt_of p) i }
{
    let k = cut.status[i] as usize;
    let s = carrier_at(cut.sheet.carriers, k);
    left_by(s, p) == 0
}

// From cell a on, the first of the first n edges of the status that does not go through p, or n.
pub fn through_to(cut: Cut, a: usize, p: Point) -> usize
    requires fact_1 { a ≤ cut.c }
    requires fact_2 { Near (pt_of p) }
    ensures { ScanStop (on_at cut.entry.sheet.carriers.now cut.entry.status.now (pt_of p)) cut.entry.c a result }
{
    for i in a..cut.c {
        if !is_on(cut, i, p) {
            return i;
        }
    }
    cut.c
}
