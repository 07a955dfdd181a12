// Seconds. The clock is that of the processor time which the program has used.
use std::fmt;
use std::fmt::Display;
use std::time::Duration;

// The seconds of one of n runs that take so many microseconds.
#[derive(Clone, Copy)]
pub struct Seconds {
    total: u64,
    n: u64,
}

impl Seconds {
    // Between two times of the clock; in microseconds, the most of 64 bits where it is more.
    pub fn of_one(start: Duration, end: Duration, n: u32) -> Self {
        let time = end.saturating_sub(start);
        Seconds {
            total: u64::try_from(time.as_micros()).unwrap_or(u64::MAX),
            n: u64::from(n),
        }
    }
}

// "seconds 0.000123456"
impl Display for Seconds {
    fn fmt<W: fmt::Write>(&self, f: &mut fmt::Formatter<W>) -> fmt::Result {
        let Seconds { total, n } = *self;
        if n == 0 {
            return Ok(());
        }
        let whole = total / n;
        let seconds = whole / 1000000;
        let micros = whole % 1000000;
        let nanos = total % n % 1000000 * 1000 / n % 1000;
        write!(f, "seconds {seconds}.{micros:06}{nanos:03}")
    }
}
