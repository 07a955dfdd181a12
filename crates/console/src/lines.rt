// The lines of answers.
use limits::LINE;
use map_file::Refusal;
use std::fmt;
use std::fmt::Display;
use std::io::{Print, Result};

// What the line of a refusal says, where more stands in that line.
#[derive(Clone, Copy)]
pub struct Refused(pub Refusal);

impl Display for Refused {
    fn fmt<W: fmt::Write>(&self, f: &mut fmt::Formatter<W>) -> fmt::Result {
        let r = self.0;
        write!(f, "refused {} map {} place {}", r.number, r.map, r.place)
    }
}

// "On refusal the only line is `refused N map M place P`": the proved text.
pub fn say_refused(rt: &impl Print, r: Refusal) -> Result<()> {
    let mut line = [0u8; LINE];
    let n = text::refused_line(r.number, r.map, r.place, &mut line);
    rt.write_all(&line[..n])
}

// The line of the check of a map file: `ok V E`, or what it is refused for.
pub fn say_check(rt: &impl Print, file: &[u8]) -> Result<()> {
    match map_check::check(file) {
        Ok(c) => println!(rt; "ok {} {}", c.vertices, c.edges),
        Err(r) => say_refused(rt, r),
    }
}
