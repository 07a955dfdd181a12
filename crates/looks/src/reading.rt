// A look that takes the edges of a map in the order of their lower ends, "stops at the first whose lower end is higher than the sounding", and counts those that it reads. A sounding and the corners
// are whole numbers, so that all that is reckoned fits 64 bits.
ghost use Rattle.std.specs.Prelude.{◌≡◌, ◌≤◌, ◌<◌, nat_abs};
ghost use Rattle.seq.specs.Seq.{cond};
ghost use Rattle.paper.specs.Limits.{absent};
ghost use Rattle.paper.specs.Plane.{vec, whole, the_left_by};
ghost use Rattle.plane.specs.Values.{seg, vec_of, seg_of};
ghost use Rattle.plane.specs.Bounds.{Corner, Edge};
ghost use Rattle.graph.specs.Flat.{carrier_at, Carried, Carriers};
ghost use Rattle.graph.specs.Pick.{better};
ghost use Rattle.looks.specs.Rails.{whole_lefts, above, passes, closer, passes_at, closer_at, Looks};

use graph::carrier_at;
use plane::{Seg, Vector, cross_of, rises};

// The number of the nearest of the edges in their order, or as many as there are where none is seen; and how many were read.
#[derive(Clone, Copy)]
pub struct Looked {
    pub rail: usize,
    pub read: u16,
}

// Whether the lower end of s is higher than c.
fn starts_above(s: Seg, c: Vector) -> bool
    requires { Edge (seg_of s) × Corner (vec_of c) }
    ensures { result ≡ above (vec_of c) (seg_of s) }
{
    c.y < s.y
}

// How far the corner a, b lies to the left of the edge from x, y along u, v.
fn left_of(x: i64, y: i64, u: i64, v: i64, a: i64, b: i64) -> i64
    requires { Edge (seg x y u v) × Corner (vec a b) }
    ensures is { result ≡ the_left_by (seg x y u v) (whole (vec a b)) }
    ensures bound { nat_abs result ≤ whole_lefts }
{
    u * (b - y) - v * (a - x)
}

// How far c lies to the left of s.
fn left_at(s: Seg, c: Vector) -> i64
    requires { Edge (seg_of s) × Corner (vec_of c) }
    ensures is { result ≡ the_left_by (seg_of s) (whole (vec_of c)) }
    ensures bound { nat_abs result ≤ whole_lefts }
{
    left_of(s.x, s.y, s.u, s.v, c.x, c.y)
}

// Whether s, which does not start above c, is a candidate: its upper end is above, and it lies west of c or goes through it.
fn passes(s: Seg, c: Vector) -> bool
    requires { Edge (seg_of s) × Corner (vec_of c) }
    ensures { result ≡ passes (vec_of c) (seg_of s) }
{
    let top = s.y + s.v;
    c.y < top
        && rises(Vector {
            x: s.v,
            y: -left_at(s, c),
        })
}

// "The nearest has the greatest x at that height; among equals, the smallest upward angle": whether s is nearer than t.
fn closer(s: Seg, t: Seg, c: Vector) -> bool
    requires { Edge (seg_of s) × Edge (seg_of t) × Corner (vec_of c) }
    ensures { result ≡ closer (vec_of c) (seg_of s) (seg_of t) }
{
    let turn = cross_of(s.u, s.v, t.u, t.v);
    let mine = left_at(s, c);
    let its = left_at(t, c);
    rises(Vector {
        x: turn,
        y: mine * t.v - its * s.v,
    })
}

// With r the nearest candidate so far, `none` where there is none yet: edge i too.
fn nearest(rails: &[i16], none: usize, i: usize, r: usize, c: Vector) -> usize
    requires { Carried rails.now i × (r < none → Carried rails.now r) × (r ≤ none) × Corner (vec_of c) }
    ensures { result ≡ better (closer_at rails.now (vec_of c)) none i r }
{
    if r == none || closer(carrier_at(rails, i), carrier_at(rails, r), c) {
        i
    } else {
        r
    }
}

// The same, if edge i is a candidate.
fn take(rails: &[i16], none: usize, i: usize, r: usize, c: Vector) -> usize
    requires { Carried rails.now i × (r < none → Carried rails.now r) × (r ≤ none) × Corner (vec_of c) }
    ensures { result ≡ cond (passes_at rails.now (vec_of c) i) (better (closer_at rails.now (vec_of c)) none i r) r }
{
    if passes(carrier_at(rails, i), c) {
        nearest(rails, none, i, r, c)
    } else {
        r
    }
}

// The nearest of e edges, from c, and how many were read.
pub fn look_read(rails: &[i16], e: usize, c: Vector) -> Looked
    requires fact_1 { Carriers rails.now e }
    requires fact_2 { e ≤ absent }
    requires fact_3 { Corner (vec_of c) }
    ensures { Looks rails.now e (vec_of c) result }
{
    let mut r = e;
    for i in 0..e {
        if starts_above(carrier_at(rails, i), c) {
            return Looked {
                rail: r,
                read: i as u16,
            };
        }
        r = take(rails, e, i, r, c);
    }
    Looked {
        rail: r,
        read: e as u16,
    }
}
