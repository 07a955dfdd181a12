// Rows that anyone may have handed in: whether each is an edge between corners, so that what a look reckons of it fits 64 bits.
ghost use Rattle.std.specs.Prelude.{◌≡◌, ◌+◌, ◌*◌, ◌≤◌, length};
ghost use Rattle.seq.specs.Seq.{the_some_below};
ghost use Rattle.looks.specs.Straying.{strays_by, strays_at};

use limits::{CARRIER_WIDTH, REACH};

// Whether a coordinate of an edge's lower end, the way from there, or the upper end's coordinate is beyond what corners have.
fn strays_by(x: i64, u: i64) -> bool
    ensures { result ≡ strays_by x u }
{
    REACH < x.unsigned_abs() || 2 * REACH < u.unsigned_abs() || REACH < (x + u).unsigned_abs()
}

// Whether row i is no edge between corners.
fn strays_at(rails: &[i16], i: usize) -> bool
    requires { 4 * i + 4 ≤ length rails.now }
    ensures { result ≡ strays_at rails.now i }
{
    let at = CARRIER_WIDTH * i;
    strays_by(rails[at] as i64, rails[at + 2] as i64)
        || strays_by(rails[at + 1] as i64, rails[at + 3] as i64)
}

// Whether one of the first e rows is none.
pub fn strays(rails: &[i16], e: usize) -> bool
    requires { 4 * e ≤ length rails.now }
    ensures { result ≡ the_some_below (strays_at rails.now) e }
{
    (0..e).any(|i| strays_at(rails, i))
}
