// Which vertices may be on an edge: of rows in point order none before the place of its lower end, and none past the place of its upper end. An end is a corner, so that a
// vertex is compared with it by one product, or two where it stands as high.
ghost use Rattle.std.specs.Prelude.{◌≡◌};
ghost use Rattle.exact.specs.Lowest.{pt};
ghost use Rattle.seq.specs.Seq.{least};
ghost use Rattle.seq.specs.Halves.{reached};
ghost use Rattle.paper.specs.Plane.{before, whole};
ghost use Rattle.plane.specs.Bounds.{Near, Corner, Edge};
ghost use Rattle.plane.specs.Values.{seg, pt_of, vec_of, seg_of};
ghost use Rattle.graph.specs.Flat.{Points, the_point_at};
ghost use Rattle.laws_cut.specs.Between.{the_on_line};
ghost use Rattle.overlay_cut.specs.Between.{InRowOrder};

use graph::point_at;
use plane::{Point, Seg, Vector};

// Whether p comes before the corner a.
fn before_corner(p: Point, a: Vector) -> bool
    requires { Near (pt_of p) × Corner (vec_of a) }
    ensures { result ≡ before (pt_of p) (whole (vec_of a)) }
{
    let level = a.y * p.d;
    if p.y == level {
        p.x < a.x * p.d
    } else {
        p.y < level
    }
}

// The first of n rows in point order that does not come before the corner a, or n: by halves.
pub fn place(points: &[i64], n: usize, a: Vector) -> usize
    requires fact_1 { Points points.now n }
    requires fact_2 { Corner (vec_of a) }
    requires fact_3 { InRowOrder points.now n }
    ensures { result ≡ least (reached before (the_point_at points.now) (whole (vec_of a))) n }
{
    // Not `partition_point`: a point is a row of four cells, and a slice of cells has no items that are points.
    let mut low = 0;
    let mut high = n;
    while low < high {
        let middle = low + (high - low) / 2;
        if before_corner(point_at(points, middle), a) {
            low = middle + 1;
        } else {
            high = middle;
        }
    }
    low
}

// Whether the point px/d, py/d lies on the line of the edge from x, y along u, v: as far along across its direction as its lower end, which is the same for every point.
fn across(x: i64, y: i64, u: i64, v: i64, px: i64, py: i64, d: i64) -> bool
    requires { Edge (seg x y u v) × Near (pt px py d) }
    ensures { result ≡ the_on_line (seg x y u v) (pt px py d) }
{
    u * py - v * px == (u * y - v * x) * d
}

// Whether p lies on the line of s.
pub fn on_line(s: Seg, p: Point) -> bool
    requires { Edge (seg_of s) × Near (pt_of p) }
    ensures { result ≡ the_on_line (seg_of s) (pt_of p) }
{
    across(s.x, s.y, s.u, s.v, p.x, p.y, p.d)
}
