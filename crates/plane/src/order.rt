// "Order: smaller y first, then smaller x".
ghost use Rattle.std.specs.Prelude.{◌≡◌, ◌-ℤ◌, ◌*ℤ◌};
ghost use Rattle.exact.specs.Compare.{sign_of};
ghost use Rattle.exact.specs.Exact.{sgn, is_neg, is_zer};
ghost use Rattle.paper.specs.Plane.{order, before, same, below};
ghost use Rattle.plane.specs.Values.{pt_of};
ghost use Rattle.plane.specs.Bounds.{Near, Coordinate, small, middling, short_way, level};

use super::point::Point;
use std::cmp::Ordering;

// Whether n/d is small. This and the next are a line each, and the numbers are all that differs: one function of both would take them as parameters, and be no plainer.
fn small(n: i64, d: i64) -> bool
    ensures { result ≡ small n d }
{
    d < 262144 && (-4294967296 < n && n < 4294967296)
}

// Whether n/d is middling.
pub fn middling(n: i64, d: i64) -> bool
    ensures { result ≡ middling n d }
{
    d < 67108864 && (-68719476736 < n && n < 68719476736)
}

// Whether n·e and m·d fit 64 bits, so that n/d and m/e are compared by them.
fn short_way(n: i64, d: i64, m: i64, e: i64) -> bool
    requires { Coordinate n d × Coordinate m e }
    ensures { result ≡ short_way n d m e }
{
    small(m, e) || (middling(n, d) && middling(m, e))
}

// The order of n/d and m/e: that of n·e and m·d, which need not fit 64 bits.
fn crosswise(n: i64, d: i64, m: i64, e: i64) -> Ordering
    requires { Coordinate n d × Coordinate m e }
    ensures { sign_of result ≡ sgn (n *ℤ e -ℤ m *ℤ d) }
{
    if short_way(n, d, m, e) {
        (n * e).cmp(&(m * d))
    } else {
        exact::products(n, e, m, d)
    }
}

// Which of p and q comes first; equal where they are one point. Of one denominator, as corners have, it is the order of their numbers.
pub fn order(p: Point, q: Point) -> Ordering
    requires { Near (pt_of p) × Near (pt_of q) }
    ensures { sign_of result ≡ order (pt_of p) (pt_of q) }
{
    if p.d == q.d {
        p.y.cmp(&q.y).then(p.x.cmp(&q.x))
    } else {
        crosswise(p.y, p.d, q.y, q.d).then_with(|| crosswise(p.x, p.d, q.x, q.d))
    }
}

// Whether p comes first, of two points with one denominator, as corners have: by their numbers.
fn level_before(p: Point, q: Point) -> bool
    requires { Near (pt_of p) × Near (pt_of q) }
    ensures { result ≡ is_neg (level (pt_of p) (pt_of q)) }
{
    if p.y == q.y { p.x < q.x } else { p.y < q.y }
}

// Whether these are one point.
fn level_same(p: Point, q: Point) -> bool
    requires { Near (pt_of p) × Near (pt_of q) }
    ensures { result ≡ is_zer (level (pt_of p) (pt_of q)) }
{
    p.y == q.y && p.x == q.x
}

// Whether p comes first. Only of two denominators is `order` called: most points that are asked for are corners.
pub fn before(p: Point, q: Point) -> bool
    requires { Near (pt_of p) × Near (pt_of q) }
    ensures { result ≡ before (pt_of p) (pt_of q) }
{
    if p.d == q.d {
        level_before(p, q)
    } else {
        order(p, q).is_lt()
    }
}

// Whether p and q are one point.
pub fn same(p: Point, q: Point) -> bool
    requires { Near (pt_of p) × Near (pt_of q) }
    ensures { result ≡ same (pt_of p) (pt_of q) }
{
    if p.d == q.d {
        level_same(p, q)
    } else {
        order(p, q).is_eq()
    }
}

// Whether p has the smaller y.
pub fn below(p: Point, q: Point) -> bool
    requires { Near (pt_of p) × Near (pt_of q) }
    ensures { result ≡ below (pt_of p) (pt_of q) }
{
    crosswise(p.y, p.d, q.y, q.d).is_lt()
}
