// The line of a height.
use std::fmt;
use std::fmt::Display;
use tide::{Height, TideRule, to_bits};

#[derive(Clone, Copy)]
pub struct Line(pub Height);

impl Display for Line {
    fn fmt<W: fmt::Write>(&self, f: &mut fmt::Formatter<W>) -> fmt::Result {
        let h = self.0;
        let height = Bits(h.height);
        let rule = Rule(h.rule);
        write!(f, "height {height} {} {rule}", h.millimetres)
    }
}

#[derive(Clone, Copy)]
struct Rule(TideRule);

impl Display for Rule {
    fn fmt<W: fmt::Write>(&self, f: &mut fmt::Formatter<W>) -> fmt::Result {
        match self.0 {
            TideRule::Unset => f.write_str("none"),
            TideRule::Ratio(k) => write!(f, "ratio {}", Bits(k)),
            TideRule::Weights(a, b) => write!(f, "weights {} {}", Bits(a), Bits(b)),
        }
    }
}

// A float by its bits.
#[derive(Clone, Copy)]
struct Bits(f64);

impl Display for Bits {
    fn fmt<W: fmt::Write>(&self, f: &mut fmt::Formatter<W>) -> fmt::Result {
        let bits = to_bits(self.0);
        write!(f, "{bits:016x}")
    }
}
