// The greatest common divisor of two numbers.
ghost use Rattle.std.specs.Prelude.{◌≡◌, ◌%◌};
ghost use Rattle.exact.specs.Gcd.{gcd_of};

// Of an odd number and any other: the other loses its factors of 2, and the less is taken from the greater.
fn odd_gcd(a: u64, b: u64) -> u64
    requires { a % 2 ≡ 1 }
    ensures { result ≡ gcd_of a b }
{
    let mut x = a;
    let mut y = b;
    while y != 0 {
        let z = y >> u64::trailing_zeros(y);
        if z < x {
            y = x - z;
            x = z;
        } else {
            y = z - x;
        }
    }
    x
}

// Of any two: by one of Euclid's remainders and then by halving. Of two even numbers it is twice that of their halves.
pub fn gcd(a: u64, b: u64) -> u64
    ensures { result ≡ gcd_of a b }
{
    if b == 0 {
        return a;
    }
    let r = a % b;
    if b % 2 == 1 {
        return odd_gcd(b, r);
    }
    if r % 2 == 1 {
        return odd_gcd(r, b);
    }
    2 * gcd(b / 2, r / 2)
}
