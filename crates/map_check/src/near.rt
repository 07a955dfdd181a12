// Edges in cells, in the order of their lower ends, each held to those after it: first by the boxes, from which x to which they reach, in tables of their own; what is left is listed, and
// held to the edge itself.
ghost use Rattle.std.specs.Prelude.{true, cond, ◌≡◌, ◌≤◌, ◌<◌, length};
ghost use Rattle.seq.specs.Seq.{least, filled};
ghost use Rattle.plane.specs.Bounds.{Corner};
ghost use Rattle.plane.specs.Values.{vec_of};
ghost use Rattle.map_check.specs.Net.{clashing_at};
ghost use Rattle.map_check.specs.Pass.{ClearAbove};
ghost use Rattle.map_check.specs.Ordered.{EachInTurn, Passable};
ghost use Rattle.map_check.specs.Near.{west_of, east_of, from_west, beside_of, carrier_in, Boxes, Picked};

use super::ordered::Ordered;
use super::pairs::clear;
use super::pass::{carrier_in, end_of};
use limits::{MAP_EDGES, REACH};
use plane::Vector;

// How far the west of the reach is.
const WEST: i64 = REACH as i64;

// How far a corner is from the west of the reach.
fn from_west(a: Vector) -> u16
    requires { Corner (vec_of a) }
    ensures { result ≡ from_west (vec_of a).x }
{
    (a.x + WEST) as u16
}

// From where to where an edge reaches, from the west of the reach.
#[derive(Clone, Copy)]
struct Span {
    west: u16,
    east: u16,
}

// From where to where the edge in cell i reaches.
fn span_in(o: Ordered, i: usize) -> Span
    requires { EachInTurn o × (i < o.count) }
    ensures west { result.west ≡ from_west (west_of (carrier_in o.entry.carriers.now o.entry.cells.now i)) }
    ensures east { result.east ≡ from_west (east_of (carrier_in o.entry.carriers.now o.entry.cells.now i)) }
{
    let s = carrier_in(o, i);
    let foot = from_west(s.foot());
    let head = from_west(s.head());
    if s.u < 0 {
        Span {
            west: head,
            east: foot,
        }
    } else {
        Span {
            west: foot,
            east: head,
        }
    }
}

// Where every edge starts in the west, and where it ends in the east, by its cell.
fn lay_spans(o: Ordered, wests: &mut [u16], easts: &mut [u16])
    requires fact_1 { EachInTurn o }
    requires fact_2 { (o.count ≤ length wests.old) × (o.count ≤ length easts.old) }
    ensures wests { wests.new ≡ filled o.entry.count (λ i. from_west (west_of (carrier_in o.entry.carriers.now o.entry.cells.now i))) wests.old }
    ensures easts { easts.new ≡ filled o.entry.count (λ i. from_west (east_of (carrier_in o.entry.carriers.now o.entry.cells.now i))) easts.old }
{
    for i in 0..o.count {
        let span = span_in(o, i);
        wests[i] = span.west;
        easts[i] = span.east;
    }
}

// 0 where the box from w to e lies beside that from v to f, and 1 where it does not.
fn over(w: u16, e: u16, v: u16, f: u16) -> usize
    ensures is { result ≡ cond (beside_of w e v f) 0 1 }
    ensures few { result ≤ 1 }
{
    usize::from(v <= e && w <= f)
}

// Lists the cells after cell i whose edges may clash with that in cell i, up to the first that starts where it ends, or after, and counts them. Each cell is put at the end of the list, which
// grows by it where the boxes are not beside each other.
fn near_above(o: Ordered, i: usize, wests: &[u16], easts: &[u16], near: &mut [u16]) -> usize
    requires fact_1 { Passable o × (i < o.count) }
    requires fact_2 { Boxes o.carriers.now o.cells.now wests.now easts.now o.count }
    requires fact_3 { o.count ≤ length near.old }
    ensures { Picked o.entry.carriers.now o.entry.cells.now o.entry.count i o.entry.count near.new result }
{
    let end = end_of(carrier_in(o, i));
    let west = wests[i];
    let east = easts[i];
    let mut c = 0;
    for j in i + 1..o.count {
        if end <= o.cells[j] {
            return c;
        }
        near[c] = j as u16;
        c += over(west, east, wests[j], easts[j]);
    }
    c
}

// Whether the edge in cell i clashes with none of those in the c cells that are listed.
fn clear_of(o: Ordered, i: usize, near: &[u16], c: usize) -> bool
    requires fact_1 { Passable o × (i < o.count) }
    requires fact_2 { (c ≤ length near.now) × Picked o.carriers.now o.cells.now o.count i o.count near.now c }
    ensures { result ≡ true → ClearAbove o.entry.carriers.now o.entry.cells.now o.entry.count i }
{
    let s = carrier_in(o, i);
    for q in 0..c {
        let j = near[q] as usize;
        let t = carrier_in(o, j);
        if !clear(s, t) {
            return false;
        }
    }
    true
}

// Whether the edge in cell i clashes with none in a later cell.
fn clear_above(o: Ordered, i: usize, wests: &[u16], easts: &[u16], near: &mut [u16]) -> bool
    requires fact_1 { Passable o × (i < o.count) }
    requires fact_2 { Boxes o.carriers.now o.cells.now wests.now easts.now o.count }
    requires fact_3 { o.count ≤ length near.old }
    ensures { result ≡ true → ClearAbove o.entry.carriers.now o.entry.cells.now o.entry.count i }
{
    let c = near_above(o, i, wests, easts, near);
    clear_of(o, i, near, c)
}

// Whether no edge clashes with one in a later cell, with the boxes in tables.
fn all_above(o: Ordered, wests: &[u16], easts: &[u16], near: &mut [u16]) -> bool
    requires fact_1 { Passable o }
    requires fact_2 { Boxes o.carriers.now o.cells.now wests.now easts.now o.count }
    requires fact_3 { o.count ≤ length near.old }
    ensures { result ≡ true → least (clashing_at o.entry.carriers.now o.entry.count) o.entry.count ≡ o.entry.count }
{
    for i in 0..o.count {
        if !clear_above(o, i, wests, easts, near) {
            return false;
        }
    }
    true
}

// Whether no edge clashes with one in a later cell.
pub fn each_clear(o: Ordered) -> bool
    requires { Passable o }
    ensures { result ≡ true → least (clashing_at o.entry.carriers.now o.entry.count) o.entry.count ≡ o.entry.count }
{
    let mut wests = [0u16; MAP_EDGES as usize];
    let mut easts = [0u16; MAP_EDGES as usize];
    lay_spans(o, &mut wests, &mut easts);
    let mut near = [0u16; MAP_EDGES as usize];
    all_above(o, &wests, &easts, &mut near)
}
