// Which of two points comes first, where one of them is the end of an edge: a corner, whose numbers are small, so that no test of their range is needed.
ghost use Rattle.std.specs.Prelude.{◌≡◌};
ghost use Rattle.paper.specs.Plane.{vec, whole, before};
ghost use Rattle.plane.specs.Bounds.{Near, Corner};
ghost use Rattle.plane.specs.Values.{pt_of};
ghost use Rattle.overlay_sweep.specs.First.{first};

use plane::Point;

// Whether x, y comes before u, v: "smaller y first, then smaller x".
pub fn first_of(x: i64, y: i64, u: i64, v: i64) -> bool
    ensures { result ≡ first x y u v }
{
    y < v || (y == v && x < u)
}

// Whether the corner x, y comes before p.
pub fn corner_before(x: i64, y: i64, p: Point) -> bool
    requires fact_1 { Corner (vec x y) }
    requires fact_2 { Near (pt_of p) }
    ensures { result ≡ before (whole (vec x y)) (pt_of p) }
{
    first_of(x * p.d, y * p.d, p.x, p.y)
}

// Whether p comes before the corner x, y.
pub fn before_corner(p: Point, x: i64, y: i64) -> bool
    requires fact_1 { Corner (vec x y) }
    requires fact_2 { Near (pt_of p) }
    ensures { result ≡ before (pt_of p) (whole (vec x y)) }
{
    first_of(p.x, p.y, x * p.d, y * p.d)
}
