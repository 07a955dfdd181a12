// The ranges of ratios, weights and readings, and a reading as a float.
ghost use Rattle.std.specs.Prelude.{◌≡◌, ◌&&◌};
ghost use Rattle.paper.specs.Tide.{ratio_in, weight_in, readable, gauge};
ghost use Rattle.tide.specs.Answer.{reading_of};

use limits::GAUGE_REACH;

// "from −20,000"
const LOWEST: i32 = -GAUGE_REACH;

// "a ratio lies from 0.25 to 4, a weight from 0 to 1". With a NaN both comparisons are false.
pub fn ratio_in(x: f64) -> bool
    ensures { result ≡ ratio_in x }
{
    0.25 <= x && x <= 4.0
}

fn weight_in(x: f64) -> bool
    ensures { result ≡ weight_in x }
{
    0.0 <= x && x <= 1.0
}

pub fn weights_in(a: f64, b: f64) -> bool
    ensures { result ≡ (weight_in a && weight_in b) }
{
    weight_in(a) && weight_in(b)
}

// "whole millimetres from −20,000 to 20,000, or missing"
pub fn readable(r: Option<i32>) -> bool
    ensures { result ≡ readable (reading_of r) }
{
    match r {
        None => false,
        Some(x) => LOWEST <= x && x <= GAUGE_REACH,
    }
}

// "a pair of weights uses both readings"
pub fn both_readable(first: Option<i32>, second: Option<i32>) -> bool
    ensures { result ≡ (readable (reading_of first) && readable (reading_of second)) }
{
    readable(first) && readable(second)
}

// A reading as a float, exactly. One that is missing is refused before.
pub fn gauge(r: Option<i32>) -> f64
    ensures { result ≡ gauge (reading_of r) }
{
    match r {
        None => 0.0,
        Some(x) => x as f64,
    }
}
