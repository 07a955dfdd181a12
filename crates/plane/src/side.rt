// On which side of an edge's line a point lies.
ghost use Rattle.std.specs.Prelude.{◌≡◌, ◌≤◌, nat_abs};
ghost use Rattle.paper.specs.Plane.{the_left_by};
ghost use Rattle.plane.specs.Values.{pt_of, seg_of};
ghost use Rattle.plane.specs.Bounds.{Near, Edge, lefts};

use super::point::{Point, Seg};

// How far p lies to the left of s.
pub fn left_by(s: Seg, p: Point) -> i64
    requires { Edge (seg_of s) × Near (pt_of p) }
    ensures is { result ≡ the_left_by (seg_of s) (pt_of p) }
    ensures bound { nat_abs result ≤ lefts }
{
    s.u * (p.y - s.y * p.d) - s.v * (p.x - s.x * p.d)
}
