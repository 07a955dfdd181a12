// How two edges meet, and which two may not stand in one map.
ghost use Rattle.std.specs.Prelude.{◌≡◌, not, ◌&&◌, ◌≤◌, nat_abs};
ghost use Rattle.std.proofs.Math.Option.{some};
ghost use Rattle.paper.specs.Limits.{denominators};
ghost use Rattle.paper.specs.Plane.{lower, upper};
ghost use Rattle.paper.specs.Plane.{crossing as common};
ghost use Rattle.paper.specs.Meeting.{meeting_at, in_line, meeting, point_of, is_end, clash_by};
ghost use Rattle.plane.specs.Values.{pt_of, seg_of, meeting_of};
ghost use Rattle.plane.specs.Bounds.{Near, Edge, NearIf};
ghost use Rattle.plane.specs.Parameters.{first_over};

use super::crossings::{crossing_over, over};
use super::edge::{foot, head};
use super::kinds::Meeting;
use super::on_edge::inside;
use super::order::{before, order, same};
use super::point::{Point, Seg};
use super::side::left_by;
use std::cmp::Ordering;

// How s and t meet; both go up.
pub fn meeting(s: Seg, t: Seg) -> Meeting
    requires { Edge (seg_of s) × Edge (seg_of t) }
    ensures is { meeting_of result ≡ meeting (seg_of s) (seg_of t) }
    ensures near { NearIf (point_of (meeting_of result)) }
{
    let d = over(s, t);
    if d != 0 {
        meeting_over(s, t, d)
    } else if left_by(s, foot(t)) == 0 {
        in_line(s, t)
    } else {
        Meeting::Apart
    }
}

// Edges in one line: the common part runs from the greater of the lower ends to the lesser of the upper ends.
fn in_line(s: Seg, t: Seg) -> Meeting
    requires { Edge (seg_of s) × Edge (seg_of t) }
    ensures is { meeting_of result ≡ in_line (seg_of s) (seg_of t) }
    ensures near { NearIf (point_of (meeting_of result)) }
{
    let lo = upper(foot(s), foot(t));
    let hi = lower(head(s), head(t));
    match order(lo, hi) {
        Ordering::Less => Meeting::Sharing,
        Ordering::Equal => Meeting::Touching(lo),
        Ordering::Greater => Meeting::Apart,
    }
}

// The lesser of p and q.
fn lower(p: Point, q: Point) -> Point
    requires { Near (pt_of p) × Near (pt_of q) }
    ensures is { pt_of result ≡ lower (pt_of p) (pt_of q) }
    ensures near { Near (pt_of result) }
{
    if before(q, p) { q } else { p }
}

// The greater of p and q.
fn upper(p: Point, q: Point) -> Point
    requires { Near (pt_of p) × Near (pt_of q) }
    ensures is { pt_of result ≡ upper (pt_of p) (pt_of q) }
    ensures near { Near (pt_of result) }
{
    if before(q, p) { p } else { q }
}

// Edges that are not parallel, d the denominator of where they meet: by the point on both.
fn meeting_over(s: Seg, t: Seg, d: i64) -> Meeting
    requires { Edge (seg_of s) × Edge (seg_of t) × (d ≡ first_over (seg_of s) (seg_of t)) × (nat_abs d ≤ denominators) }
    ensures is { meeting_of result ≡ meeting_at (seg_of s) (seg_of t) (common (seg_of s) (seg_of t)) }
    ensures near { NearIf (point_of (meeting_of result)) }
{
    match crossing_over(s, t, d) {
        Some(p) => at_point(s, t, p),
        None => Meeting::Apart,
    }
}

// By the point p on both: inside both, or an end of one.
fn at_point(s: Seg, t: Seg, p: Point) -> Meeting
    requires { Edge (seg_of s) × Edge (seg_of t) × Near (pt_of p) }
    ensures is { meeting_of result ≡ meeting_at (seg_of s) (seg_of t) (some (pt_of p)) }
    ensures near { NearIf (point_of (meeting_of result)) }
{
    if inside(s, p) && inside(t, p) {
        Meeting::Crossing(p)
    } else {
        Meeting::Touching(p)
    }
}

// Whether p is an end of s.
fn is_end(s: Seg, p: Point) -> bool
    requires { Edge (seg_of s) × Near (pt_of p) }
    ensures { result ≡ is_end (seg_of s) (pt_of p) }
{
    same(foot(s), p) || same(head(s), p)
}

// Whether p is not an end of both.
fn no_corner(s: Seg, t: Seg, p: Point) -> bool
    requires { Edge (seg_of s) × Edge (seg_of t) × Near (pt_of p) }
    ensures { result ≡ not (is_end (seg_of s) (pt_of p) && is_end (seg_of t) (pt_of p)) }
{
    !(is_end(s, p) && is_end(t, p))
}

// Whether s and t share "any point that is not an end of both, a stretch or the whole edge included"; both go up.
pub fn clash_by(s: Seg, t: Seg) -> bool
    requires { Edge (seg_of s) × Edge (seg_of t) }
    ensures { result ≡ clash_by (seg_of s) (seg_of t) (meeting (seg_of s) (seg_of t)) }
{
    match meeting(s, t) {
        Meeting::Apart => false,
        Meeting::Touching(p) => no_corner(s, t, p),
        Meeting::Crossing(_) | Meeting::Sharing => true,
    }
}
