// The order of two products that need not fit 64 bits: each number in two words of base 2^31, its quotient and its remainder. Both have the number's sign, so there is no carry and no case on signs.
ghost use Rattle.std.specs.Prelude.{◌≡◌, ◌≤◌, ◌^◌, pos, nat_abs, ◌-ℤ◌, ◌*ℤ◌};
ghost use Rattle.std.specs.Int.Signed.{quot_z, rem_z};
ghost use Rattle.exact.specs.Exact.{sgn, lex_s};
ghost use Rattle.exact.specs.Compare.{sign_of};
ghost use Rattle.exact.specs.Words.{base, Factors};

use std::cmp::Ordering;

const BASE: i64 = 2147483648;

// The high word.
fn high(x: i64) -> i64
    ensures { result ≡ quot_z x (pos base) }
{
    x / BASE
}

// The low word.
fn low(x: i64) -> i64
    ensures is { result ≡ rem_z x (pos base) }
    ensures bound { nat_abs result ≤ 2 ^ 31 }
{
    x % BASE
}

// The order of y and 0, or that of x and 0 where y is 0.
fn lex(y: i64, x: i64) -> Ordering
    ensures { sign_of result ≡ lex_s y x }
{
    y.cmp(&0).then(x.cmp(&0))
}

// The order of a·b and c·d.
pub fn products(a: i64, b: i64, c: i64, d: i64) -> Ordering
    requires { Factors a b c d }
    ensures { sign_of result ≡ sgn (a *ℤ b -ℤ c *ℤ d) }
{
    let lower = low(a) * b - low(c) * d;
    let upper = high(a) * b - high(c) * d + high(lower);
    lex(upper, low(lower))
}
