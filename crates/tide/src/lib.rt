// Height of tide for a zone (02, Ask 5).
#![tactic(auto)]

mod rule; // what is taken and answered
mod judge; // ranges, and readings as floats
mod nearest; // the nearest whole number from a float's bits
mod bits; // a float and its bits, for every pattern and every float

ghost use Rattle.std.specs.Prelude.{◌≡◌, [], ◌∷◌, not};
ghost use Rattle.seq.specs.Seq.{none};
ghost use Rattle.paper.specs.Refusal.{given, first_of, answer};
ghost use Rattle.paper.specs.Tide.{nearest_whole, tide};
ghost use Rattle.map_file.specs.Verdict.{verdict};
ghost use Rattle.laws_tide.specs.AtMost.{AtMost};
ghost use Rattle.tide.specs.Answer.{rule_of, reading_of, answer_of};

use crate::judge::{both_readable, gauge, ratio_in, readable, weights_in};
use crate::nearest::nearest;
pub use bits::{of_bits, to_bits};
use map_file::{Check, Refusal, given};
pub use rule::{Height, TideRule};

// 15 for a rule out of range, then 16 for a reading.
fn fault(ranged: bool, readable: bool) -> Check
    ensures { verdict result ≡ first_of (given 15 0 (not ranged) ∷ given 16 0 (not readable) ∷ []) }
{
    given(15, 0, !ranged)?;
    given(16, 0, !readable)
}

// The refusal, or else the height, brought to the nearest whole millimetre.
fn answered(fault: Check, h: f64, rule: TideRule) -> Result<Height, Refusal>
    requires { verdict fault ≡ none → AtMost 80000 h }
    ensures { answer_of result ≡ answer (record { height = h; millimetres = nearest_whole h; rule = rule_of rule }) (verdict fault) }
{
    fault?;
    Ok(Height {
        height: h,
        millimetres: nearest(h),
        rule,
    })
}

// The height of tide by a zone's rule and both readings, "whole millimetres .., or missing"; or the first refusal.
pub fn height(rule: TideRule, first: Option<i32>, second: Option<i32>) -> Result<Height, Refusal>
    ensures { answer_of result ≡ tide (rule_of rule) (reading_of first) (reading_of second) }
{
    match rule {
        TideRule::Unset => answered(given(14, 0, true), 0.0, rule),
        TideRule::Ratio(ratio) => {
            let refusal = fault(ratio_in(ratio), readable(first));
            answered(refusal, ratio * gauge(first), rule)
        }
        TideRule::Weights(a, b) => {
            let refusal = fault(weights_in(a, b), both_readable(first, second));
            answered(refusal, a * gauge(first) + b * gauge(second), rule)
        }
    }
}
