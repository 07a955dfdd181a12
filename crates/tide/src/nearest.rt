// The nearest whole number from a float's bits: "halves away from zero, exactly for the float obtained".
ghost use Rattle.std.specs.Prelude.{◌≡◌, ◌≤◌};
ghost use Rattle.paper.specs.Tide.{nearest_whole};
ghost use Rattle.laws_tide.specs.AtMost.{AtMost};
ghost use Rattle.laws_tide.specs.Pattern.{field, whole_of};

const SIGN: u64 = 0x8000_0000_0000_0000;

const LEAD: u64 = 0x10_0000_0000_0000;

// Of the magnitude: the digits under a leading one, in units of 2 ^ (field - 1075), and half a unit of 1 added before the lower bits go. Below the field 1022
// it is less than a half.
fn magnitude(bits: u64) -> u64
    requires { field bits ≤ 1053 }
    ensures { result ≡ whole_of bits }
{
    let field = bits % SIGN / LEAD;
    if field < 1022 {
        return 0;
    }
    (LEAD + bits % LEAD + (1 << (1074 - field))) >> (1075 - field)
}

pub fn nearest(x: f64) -> i32
    requires { AtMost 2147483647 x }
    ensures { result ≡ nearest_whole x }
{
    let bits = f64::to_bits(x);
    let n = magnitude(bits) as i32;
    if bits >= SIGN { 0 - n } else { n }
}
