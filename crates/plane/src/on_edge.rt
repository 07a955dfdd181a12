// Whether a point lies on an edge.
ghost use Rattle.std.specs.Prelude.{◌≡◌};
ghost use Rattle.paper.specs.Plane.{inside, on_seg};
ghost use Rattle.plane.specs.Values.{pt_of, seg_of};
ghost use Rattle.plane.specs.Bounds.{Near, Edge};

use super::edge::{foot, head};
use super::order::before;
use super::point::{Point, Seg};
use super::side::left_by;

// Whether p lies inside s, its ends not included; s goes up.
pub fn inside(s: Seg, p: Point) -> bool
    requires { Edge (seg_of s) × Near (pt_of p) }
    ensures { result ≡ inside (seg_of s) (pt_of p) }
{
    left_by(s, p) == 0 && (before(foot(s), p) && before(p, head(s)))
}

// Whether p lies on s, its ends included; s goes up.
pub fn on_seg(s: Seg, p: Point) -> bool
    requires { Edge (seg_of s) × Near (pt_of p) }
    ensures { result ≡ on_seg (seg_of s) (pt_of p) }
{
    left_by(s, p) == 0 && (!before(p, foot(s)) && !before(head(s), p))
}
