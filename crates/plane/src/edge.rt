// An edge's ends, and the edge between two corners.
ghost use Rattle.std.specs.Prelude.{◌≡◌};
ghost use Rattle.paper.specs.Plane.{whole, head, between};
ghost use Rattle.plane.specs.Values.{from_to, pt_of, vec_of, seg_of};
ghost use Rattle.plane.specs.Bounds.{Corner, Near, Edge};

use super::order::before;
use super::point::{Point, Seg, Vector, whole};

impl Seg {
    // The corner that the edge starts from.
    pub fn foot(self) -> Vector
        requires { Edge (seg_of self) }
        ensures is { vec_of result ≡ (seg_of self).foot }
        ensures near { Corner (vec_of result) }
    {
        Vector {
            x: self.x,
            y: self.y,
        }
    }

    // The corner that it ends at.
    pub fn head(self) -> Vector
        requires { Edge (seg_of self) }
        ensures is { vec_of result ≡ head (seg_of self) }
        ensures near { Corner (vec_of result) }
    {
        Vector {
            x: self.x + self.u,
            y: self.y + self.v,
        }
    }
}

// The end that s starts from, as a point.
pub fn foot(s: Seg) -> Point
    requires { Edge (seg_of s) }
    ensures is { pt_of result ≡ whole (seg_of s).foot }
    ensures near { Near (pt_of result) }
{
    whole(s.foot())
}

// The other end.
pub fn head(s: Seg) -> Point
    requires { Edge (seg_of s) }
    ensures is { pt_of result ≡ whole (head (seg_of s)) }
    ensures near { Near (pt_of result) }
{
    whole(s.head())
}

// The edge from a to b.
pub fn from_to(a: Vector, b: Vector) -> Seg
    requires { Corner (vec_of a) × Corner (vec_of b) }
    ensures is { seg_of result ≡ from_to (vec_of a) (vec_of b) }
    ensures edge { Edge (seg_of result) }
{
    Seg {
        x: a.x,
        y: a.y,
        u: b.x - a.x,
        v: b.y - a.y,
    }
}

// The edge between a and b, from its lower end.
pub fn between(a: Vector, b: Vector) -> Seg
    requires { Corner (vec_of a) × Corner (vec_of b) }
    ensures is { seg_of result ≡ between (vec_of a) (vec_of b) }
    ensures edge { Edge (seg_of result) }
{
    if before(whole(b), whole(a)) {
        from_to(b, a)
    } else {
        from_to(a, b)
    }
}
