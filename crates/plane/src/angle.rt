// "Angles .. run from 0 (east) counter-clockwise to just under 360 degrees".
ghost use Rattle.std.specs.Prelude.{◌≡◌, ◌≤◌, nat_abs};
ghost use Rattle.paper.specs.Limits.{denominators};
ghost use Rattle.paper.specs.Plane.{vec, cross, rises, less_angle};
ghost use Rattle.plane.specs.Values.{vec_of};
ghost use Rattle.plane.specs.Bounds.{Direction};

use super::point::Vector;

// "u1·v2 − u2·v1" of the directions a, b and c, d: positive where the second is to the left of the first. By numbers, as most callers have edges and not directions.
pub fn cross_of(a: i64, b: i64, c: i64, d: i64) -> i64
    requires { Direction (vec a b) × Direction (vec c d) }
    ensures is { result ≡ cross (vec a b) (vec c d) }
    ensures bound { nat_abs result ≤ denominators }
{
    a * d - b * c
}

// Whether the angle of u is under 180 degrees.
pub fn rises(u: Vector) -> bool
    ensures { result ≡ rises (vec_of u) }
{
    if u.y == 0 { 0 < u.x } else { 0 < u.y }
}

// Whether the angle of u is less than that of v.
pub fn less_angle(u: Vector, v: Vector) -> bool
    requires { Direction (vec_of u) × Direction (vec_of v) }
    ensures { result ≡ less_angle (vec_of u) (vec_of v) }
{
    if rises(u) == rises(v) {
        0 < cross_of(u.x, u.y, v.x, v.y)
    } else {
        rises(u)
    }
}
