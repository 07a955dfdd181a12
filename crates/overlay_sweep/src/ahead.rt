// The crossing of two neighbours of the status, if it is still ahead, put into the queue.
ghost use Rattle.std.specs.Prelude.{◌≡◌, cond, [], ◌∷◌, ◌+◌, ◌<◌, eqb, length};
ghost use Rattle.seq.specs.Seq.{get_or};
ghost use Rattle.paper.specs.Limits.{maps};
ghost use Rattle.paper.specs.Plane.{before};
ghost use Rattle.plane.specs.Bounds.{Near, Edge};
ghost use Rattle.plane.specs.Values.{pt_of, seg_of};
ghost use Rattle.laws_sweep.specs.Sweep.{ahead};
ghost use Rattle.overlay_sweep.specs.Ahead.{the_map_at, strand_at, Queued, Room, cross_ahead};
ghost use Rattle.overlay_sweep.specs.Neighbours.{joint_at};

use crate::earlier::earlier;
use crate::queue::crossing_in;
use crate::sheet::Cut;
use graph::carrier_at;
use limits::MAPS;
use plane::{Point, Seg, crossing_over, over};

// The map that edge k is of: the first whose edges end after it.
fn map_of(starts: &[usize], k: usize) -> usize
    requires { maps < length starts.now }
    ensures { result ≡ the_map_at starts.now k }
{
    (0..MAPS).position(|m| k < starts[m + 1]).unwrap_or(MAPS)
}

// Whether the edges k and l are of one map.
fn one_map(starts: &[usize], k: usize, l: usize) -> bool
    requires { maps < length starts.now }
    ensures { result ≡ eqb (the_map_at starts.now k) (the_map_at starts.now l) }
{
    map_of(starts, k) == map_of(starts, l)
}

// Puts q, if it comes after p, among n points. Answers how many there are then.
fn ahead_in(p: Point, q: Point, points: &mut [i64], n: usize, guess: i64) -> usize
    requires fact_1 { Near (pt_of p) × Near (pt_of q) }
    requires fact_2 { Room points.old n }
    ensures { Queued (cond (before (pt_of p) (pt_of q)) (pt_of q ∷ []) []) points.old n points.new result }
{
    if earlier(p, q) {
        crossing_in(points, n, q, guess)
    } else {
        n
    }
}

// Puts the crossing of s and t, if there is one after p, among n points. Parallel edges have none.
fn cross_in(s: Seg, t: Seg, p: Point, points: &mut [i64], n: usize, guess: i64) -> usize
    requires fact_1 { Edge (seg_of s) × Edge (seg_of t) }
    requires fact_2 { Near (pt_of p) }
    requires fact_3 { Room points.old n }
    ensures { Queued (cross_ahead (pt_of p) (seg_of s) (seg_of t)) points.old n points.new result }
{
    match crossing_over(s, t, over(s, t)) {
        None => n,
        Some(q) => ahead_in(p, q, points, n, guess),
    }
}

// What is told of the place of a crossing in the status, where it is found in cell j. Nothing rests on it.
fn guess_of(j: usize) -> i64 {
    if j < 65536 { j as i64 } else { 0 }
}

// The same of the edges in the cells j and j + 1 of c in the status, if they are of different maps.
fn tested(cut: Cut, j: usize, p: Point, points: &mut [i64], n: usize) -> usize
    requires fact_1 { j + 1 < cut.c }
    requires fact_2 { Near (pt_of p) }
    requires fact_3 { Room points.old n }
    ensures { Queued (ahead (pt_of p) (strand_at cut.entry.sheet.carriers.now cut.entry.sheet.starts.now (get_or cut.entry.status.now j 0)) (strand_at cut.entry.sheet.carriers.now cut.entry.sheet.starts.now (get_or cut.entry.status.now (j + 1) 0))) points.old n points.new result }
{
    let k = cut.status[j] as usize;
    let l = cut.status[j + 1] as usize;
    if one_map(cut.sheet.starts, k, l) {
        return n;
    }
    cross_in(
        carrier_at(cut.sheet.carriers, k),
        carrier_at(cut.sheet.carriers, l),
        p,
        points,
        n,
        guess_of(j),
    )
}

// Tests the edges in the cells j - 1 and j of c in the status, if cell j - 1 is not before `from` and there is a cell j.
pub fn joined(cut: Cut, from: usize, j: usize, p: Point, points: &mut [i64], n: usize) -> usize
    requires fact_1 { Near (pt_of p) }
    requires fact_2 { Room points.old n }
    ensures { Queued (joint_at cut.entry.sheet.carriers.now cut.entry.sheet.starts.now (pt_of p) cut.entry.status.now from j cut.entry.c) points.old n points.new result }
{
    if from < j && j < cut.c {
        tested(cut, j - 1, p, points, n)
    } else {
        n
    }
}
