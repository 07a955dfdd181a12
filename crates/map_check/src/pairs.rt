// Two edges that do not clash, found without the point where they meet: by their boxes, by sides, or by an end that they have in common.
ghost use Rattle.std.specs.Prelude.{true, false, ◌≡◌};
ghost use Rattle.paper.specs.Plane.{whole, head, the_left_by, clash};
ghost use Rattle.laws_plane.specs.Cone.{UpV};
ghost use Rattle.laws_fast.specs.Sides.{the_one_side};
ghost use Rattle.plane.specs.Values.{vec_of, seg_of};
ghost use Rattle.plane.specs.Bounds.{Corner, Edge};
ghost use Rattle.map_check.specs.Pairs.{CommonEnd};

use plane::{Seg, Vector, boxes_apart, cross_of, left_by, whole};

// Whether a and b are one corner.
fn one_corner(a: Vector, b: Vector) -> bool
    ensures { result ≡ true → vec_of a ≡ vec_of b }
{
    a == b
}

// Whether a and b are both positive or both negative.
fn one_side(a: i64, b: i64) -> bool
    ensures { result ≡ the_one_side a b }
{
    (0 < a && 0 < b) || (a < 0 && b < 0)
}

// Whether both ends of t lie strictly on one side of s.
fn lies_aside(s: Seg, t: Seg) -> bool
    requires { Edge (seg_of s) × Edge (seg_of t) }
    ensures { result ≡ the_one_side (the_left_by (seg_of s) (whole (seg_of t).foot)) (the_left_by (seg_of s) (whole (head (seg_of t)))) }
{
    let a = left_by(s, whole(t.foot()));
    let b = left_by(s, whole(t.head()));
    one_side(a, b)
}

// Whether s and t start together or end together.
fn share_end(s: Seg, t: Seg) -> bool
    requires { Edge (seg_of s) × Edge (seg_of t) }
    ensures { result ≡ true → CommonEnd (seg_of s) (seg_of t) }
{
    one_corner(s.foot(), t.foot()) || one_corner(s.head(), t.head())
}

// Whether s and t go different ways from a common lower end, or to a common upper end.
fn fork(s: Seg, t: Seg) -> bool
    requires { Edge (seg_of s) × Edge (seg_of t) × UpV (seg_of s).up × UpV (seg_of t).up }
    ensures { result ≡ true → clash (seg_of s) (seg_of t) ≡ false }
{
    share_end(s, t) && cross_of(s.u, s.v, t.u, t.v) != 0
}

// Whether s and t have an end in common and nothing else: one ends where the other starts, or they fork.
fn join(s: Seg, t: Seg) -> bool
    requires { Edge (seg_of s) × Edge (seg_of t) × UpV (seg_of s).up × UpV (seg_of t).up }
    ensures { result ≡ true → clash (seg_of s) (seg_of t) ≡ false }
{
    // One test after the other, here and below: joined by ||, the proof does not close, as it asks which of them held.
    if one_corner(s.head(), t.foot()) {
        return true;
    }
    if one_corner(t.head(), s.foot()) {
        return true;
    }
    fork(s, t)
}

// Whether s and t, which go up, do not clash: their boxes are apart, or they only join, as most of the others do, or one lies on one side of the other.
pub fn clear(s: Seg, t: Seg) -> bool
    requires { Edge (seg_of s) × Edge (seg_of t) × UpV (seg_of s).up × UpV (seg_of t).up }
    ensures { result ≡ true → clash (seg_of s) (seg_of t) ≡ false }
{
    if boxes_apart(s, t) {
        return true;
    }
    if join(s, t) {
        return true;
    }
    if lies_aside(s, t) {
        return true;
    }
    lies_aside(t, s)
}
