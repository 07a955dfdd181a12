// The height of tide for C: the rule and the readings from numbers, and the answer as one number and one float.
ghost use Rattle.std.specs.Prelude.{◌≡◌};
ghost use Rattle.tide.specs.Answer.{rule_of, reading_of, answer_of as tide_answer};
ghost use Rattle.bonnetewe.specs.ToldTide.{rule_by, reading_by, told_millimetres, told_tide, told_height};

use crate::answer::join;
use map_file::Refusal;
use tide::{Height, TideRule};

// 0 none, 1 a ratio, any other a pair of weights.
pub fn rule_by(kind: u16, a: f64, b: f64) -> TideRule
    ensures { rule_of result ≡ rule_by kind a b }
{
    if kind == 0 {
        return TideRule::Unset;
    }
    if kind == 1 {
        return TideRule::Ratio(a);
    }
    TideRule::Weights(a, b)
}

// The least number of 32 bits stands for a missing reading.
pub fn reading_by(x: i32) -> Option<i32>
    ensures { reading_of result ≡ reading_by x }
{
    if x == -2147483648 {
        return None;
    }
    Some(x)
}

// The sign and the magnitude of the millimetres, above a 0.
fn of_millimetres(n: i32) -> u64
    ensures { result ≡ told_millimetres n }
{
    let size = (n as i64).unsigned_abs();
    if n < 0 {
        return 65536 * (1 + 65536 * size);
    }
    65536 * (65536 * size)
}

// The millimetres, or the refusal.
pub fn of_tide(answer: Result<Height, Refusal>) -> u64
    ensures { result ≡ told_tide (tide_answer answer) }
{
    match answer {
        Ok(h) => of_millimetres(h.millimetres),
        Err(r) => join(r.number, r.map, r.place, r.other),
    }
}

// The height before rounding, 0 where it is refused.
pub fn height_of(answer: Result<Height, Refusal>) -> f64
    ensures { result ≡ told_height (tide_answer answer) }
{
    match answer {
        Ok(h) => h.height,
        Err(_) => 0.0,
    }
}
