// "An edge p to p+u meets an edge p' to p'+v in one point, if u1·v2 − u2·v1 is not 0, exactly when both parameters lie from 0 to 1, ends included."
ghost use Rattle.std.specs.Prelude.{true, ◌≡◌, ◌≤◌, nat_abs};
ghost use Rattle.paper.specs.Limits.{denominators};
ghost use Rattle.paper.specs.Plane.{within, cross_at, cross_by, crossing};
ghost use Rattle.plane.specs.Values.{pt_of, seg_of, cross_of};
ghost use Rattle.plane.specs.Bounds.{Near, Edge, Over, NearIf};
ghost use Rattle.plane.specs.Parameters.{first_over, second_over, number_over, point_along};

use super::angle::cross_of;
use super::point::{Point, Seg};
use exact::lowest;
use std::cmp::Ordering;

// The denominator of both parameters.
pub fn over(s: Seg, t: Seg) -> i64
    requires { Edge (seg_of s) × Edge (seg_of t) }
    ensures both { (result ≡ first_over (seg_of s) (seg_of t)) × (result ≡ second_over (seg_of s) (seg_of t)) }
    ensures bound { nat_abs result ≤ denominators }
{
    cross_of(s.u, s.v, t.u, t.v)
}

// Where s and t meet, in lowest terms; d is the denominator of both parameters.
pub fn crossing_over(s: Seg, t: Seg, d: i64) -> Option<Point>
    requires { Edge (seg_of s) × Edge (seg_of t) × (d ≡ first_over (seg_of s) (seg_of t)) × (nat_abs d ≤ denominators) }
    ensures is { cross_of result ≡ crossing (seg_of s) (seg_of t) }
    ensures near { NearIf (cross_of result) }
{
    let n = number_over(s, t, t);
    let m = number_over(s, t, s);
    cross_by(s, n, m, d)
}

// What stands over it: with e for t, of the point along s; with e for s, of the point along t.
fn number_over(s: Seg, t: Seg, e: Seg) -> i64
    requires { Edge (seg_of s) × Edge (seg_of t) × Edge (seg_of e) }
    ensures is { result ≡ number_over (seg_of s) (seg_of t) (seg_of e) }
    ensures bound { nat_abs result ≤ denominators }
{
    cross_of(t.x - s.x, t.y - s.y, e.u, e.v)
}

// The point at the parameters n/d and m/d, turned so that d is positive.
fn cross_by(s: Seg, n: i64, m: i64, d: i64) -> Option<Point>
    requires { Edge (seg_of s) × (nat_abs n ≤ denominators) × (nat_abs m ≤ denominators) × (nat_abs d ≤ denominators) }
    ensures is { cross_of result ≡ cross_by (seg_of s) n m d }
    ensures near { NearIf (cross_of result) }
{
    match d.cmp(&0) {
        Ordering::Less => cross_at(s, -n, -m, -d),
        Ordering::Equal => None,
        Ordering::Greater => cross_at(s, n, m, d),
    }
}

// The point at the parameters n/d and m/d, where both lie from 0 to 1.
fn cross_at(s: Seg, n: i64, m: i64, d: i64) -> Option<Point>
    requires { Edge (seg_of s) × Over n d × Over m d }
    ensures is { cross_of result ≡ cross_at (seg_of s) n m d }
    ensures near { NearIf (cross_of result) }
{
    if within(n, d) && within(m, d) {
        let p = along(s, n, d);
        let q = lowest(p.x, p.y, p.d);
        Some(q)
    } else {
        None
    }
}

// 0 ≤ n/d ≤ 1, at d > 0.
fn within(n: i64, d: i64) -> bool
    ensures { result ≡ within n d }
{
    0 <= n && n <= d
}

// The point of s at n/d, over d.
fn along(s: Seg, n: i64, d: i64) -> Point
    requires { Edge (seg_of s) × Over n d × (within n d ≡ true) }
    ensures is { pt_of result ≡ point_along (seg_of s) n d }
    ensures near { Near (pt_of result) }
{
    Point {
        x: s.x * d + n * s.u,
        y: s.y * d + n * s.v,
        d,
    }
}
