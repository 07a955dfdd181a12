// A point divided by the greatest common divisor of its three numbers.
ghost use Rattle.std.specs.Prelude.{◌≡◌, pos, ◌<ℤ◌};
ghost use Rattle.exact.specs.Lowest.{lowest, pt};

use super::gcd::gcd;

// The point x/d, y/d.
#[derive(Clone, Copy)]
pub struct Point {
    pub x: i64,
    pub y: i64,
    pub d: i64,
}

// The point x/d, y/d in lowest terms. The divisor of x and d is looked for first, which one remainder brings below d; most often it is 1, and the point stays as it is.
pub fn lowest(x: i64, y: i64, d: i64) -> Point
    requires { pos 0 <ℤ d }
    ensures { pt result.x result.y result.d ≡ lowest x y d }
{
    let c = gcd(x.unsigned_abs(), d.unsigned_abs());
    if c == 1 {
        return Point { x, y, d };
    }
    let n = gcd(y.unsigned_abs(), c);
    if n == 1 {
        return Point { x, y, d };
    }
    let g = n as i64;
    Point {
        x: x / g,
        y: y / g,
        d: d / g,
    }
}
