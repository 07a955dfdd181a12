// A record of 32 bytes, all numbers low byte first: what the rule is (0 none, 1 a ratio, otherwise weights); whether the first and the second reading are there;
// a spare byte; the two readings in four bytes each, two's complement; four spare bytes; the two floats by their bits, eight bytes each.
ghost use Rattle.std.specs.Prelude.{◌≤◌, ◌<◌, ◌+◌};

use map_file::byte_at;
use std::array;
use tide::{TideRule, of_bits};

pub const RECORD: usize = 32;

// N bytes from a place on.
fn bytes<const N: usize>(record: &[u8], at: usize) -> [u8; N]
    requires { at + N ≤ 32 }
{
    array::from_fn(|i| byte_at(record, at + i))
}

fn float(record: &[u8], at: usize) -> f64
    requires { at ≤ 24 }
{
    of_bits(u64::from_le_bytes(bytes(record, at)))
}

pub fn rule(record: &[u8]) -> TideRule {
    match byte_at(record, 0) {
        0 => TideRule::Unset,
        1 => TideRule::Ratio(float(record, 16)),
        _ => TideRule::Weights(float(record, 16), float(record, 24)),
    }
}

// Reading i: the first is 0, the second 1.
pub fn reading(record: &[u8], i: usize) -> Option<i32>
    requires { i < 2 }
{
    if byte_at(record, 1 + i) == 0 {
        return None;
    }
    Some(i32::from_le_bytes(bytes(record, 4 + 4 * i)))
}
