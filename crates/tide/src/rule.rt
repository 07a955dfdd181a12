// What the height operation takes and answers.

// "none, a ratio of one gauge, or a pair of weights for two gauges"
#[derive(Clone, Copy)]
pub enum TideRule {
    Unset,
    Ratio(f64),
    Weights(f64, f64),
}

// "The rule used is returned with the height": before rounding, and in whole millimetres.
#[derive(Clone, Copy)]
pub struct Height {
    pub height: f64,
    pub millimetres: i32,
    pub rule: TideRule,
}
