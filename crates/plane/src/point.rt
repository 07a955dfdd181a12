// Points, directions and edges by value.
ghost use Rattle.std.specs.Prelude.{◌≡◌};
ghost use Rattle.paper.specs.Plane.{whole};
ghost use Rattle.plane.specs.Values.{pt_of, vec_of};
ghost use Rattle.plane.specs.Bounds.{Corner, Near};

pub use exact::Point;

// A direction, or a corner of a map.
#[derive(Clone, Copy, PartialEq, Eq)]
pub struct Vector {
    pub x: i64,
    pub y: i64,
}

// The edge from the corner x, y to x + u, y + v.
#[derive(Clone, Copy)]
pub struct Seg {
    pub x: i64,
    pub y: i64,
    pub u: i64,
    pub v: i64,
}

// "a corner (x, y) is the vertex (x, y, 1)"
pub fn whole(a: Vector) -> Point
    requires { Corner (vec_of a) }
    ensures is { pt_of result ≡ whole (vec_of a) }
    ensures near { Near (pt_of result) }
{
    Point {
        x: a.x,
        y: a.y,
        d: 1,
    }
}
