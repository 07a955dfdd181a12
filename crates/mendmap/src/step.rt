// What is printed of each thing done: `STEP NUMBER` and words for people.
use std::fmt;
use std::fmt::Display;
use std::io::{Print, Result};

// What was done to the vertex or edge of a number.
#[derive(Clone, Copy)]
enum Step {
    Merged,
    NoLength,
    Doubled,
    Lonely,
}

impl From<u16> for Step {
    fn from(step: u16) -> Self {
        match step {
            1 => Step::Merged,
            2 => Step::NoLength,
            3 => Step::Doubled,
            _ => Step::Lonely,
        }
    }
}

impl Display for Step {
    fn fmt<W: fmt::Write>(&self, f: &mut fmt::Formatter<W>) -> fmt::Result {
        f.write_str(match self {
            Step::Merged => "vertex merged",
            Step::NoLength => "edge without length dropped",
            Step::Doubled => "edge doubled dropped",
            Step::Lonely => "vertex without edge dropped",
        })
    }
}

// The first n entries of the list, two numbers each.
pub fn say_list(rt: &impl Print, list: &[u16], n: u16) -> Result<()> {
    for entry in list.chunks_exact(2).take(n as usize) {
        if let [step, number] = entry {
            println!(rt; "{step} {number} {}", Step::from(*step))?;
        }
    }
    Ok(())
}
