// Edges whose boxes are apart, by height or by width: they have no point in common.
ghost use Rattle.std.specs.Prelude.{◌≡◌, ◌||◌, ◌+ℤ◌};
ghost use Rattle.laws_plane.specs.Boxes.{lesser, boxes_apart};
ghost use Rattle.plane.specs.Values.{seg_of};
ghost use Rattle.plane.specs.Bounds.{Edge, Span};

use super::point::Seg;

// Whether a and b are both less than c and d.
fn both_less(a: i64, b: i64, c: i64, d: i64) -> bool
    ensures { result ≡ lesser a b c d }
{
    (a < c && a < d) && (b < c && b < d)
}

// Whether the numbers between a and a + u are all less than those between b and b + v, or all greater.
fn spans_apart(a: i64, u: i64, b: i64, v: i64) -> bool
    requires { Span a u × Span b v }
    ensures { result ≡ (lesser a (a +ℤ u) b (b +ℤ v) || lesser b (b +ℤ v) a (a +ℤ u)) }
{
    let top = a + u;
    let end = b + v;
    both_less(a, top, b, end) || both_less(b, end, a, top)
}

// Whether one of s and t lies wholly below or wholly west of the other.
pub fn boxes_apart(s: Seg, t: Seg) -> bool
    requires { Edge (seg_of s) × Edge (seg_of t) }
    ensures { result ≡ boxes_apart (seg_of s) (seg_of t) }
{
    spans_apart(s.y, s.v, t.y, t.v) || spans_apart(s.x, s.u, t.x, t.u)
}
