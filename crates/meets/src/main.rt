// How two edges meet, of many pairs: a line for each 16 bytes of the file `pairs`, eight signed 16-bit numbers, low byte first: x and y of the ends of the first
// edge, then of the second. A line is `apart`, `touching X Y D`, `crossing X Y D`, `sharing` or `refused N map M place P`, and `short` for fewer bytes at the end.
// What is printed is held to the second program's answers.
#![tactic(auto)]

use map_file::u16_at;
use plane::{Meeting, Point};
use std::fmt::Display;
use std::io::{Print, Result};
use std::{array, fmt, fs};

// How two edges meet, in words.
#[derive(Clone, Copy)]
struct Line(Meeting);

impl Display for Line {
    fn fmt<W: fmt::Write>(&self, f: &mut fmt::Formatter<W>) -> fmt::Result {
        match self.0 {
            Meeting::Apart => f.write_str("apart"),
            Meeting::Touching(Point { x, y, d }) => write!(f, "touching {x} {y} {d}"),
            Meeting::Crossing(Point { x, y, d }) => write!(f, "crossing {x} {y} {d}"),
            Meeting::Sharing => f.write_str("sharing"),
        }
    }
}

fn answer(rt: &impl Print, pair: &[u8]) -> Result<()> {
    let ends: [i16; 8] = array::from_fn(|i| u16_at(pair, 2 * i).cast_signed());
    let [ax, ay, bx, by, cx, cy, dx, dy] = ends;
    match meet::meet(ax, ay, bx, by, cx, cy, dx, dy) {
        Ok(m) => rt.println(Line(m)),
        Err(r) => console::say_refused(rt, r),
    }
}

fn main(rt: HostRuntime) -> Result<()> {
    match fs::open(&rt, "pairs") {
        Ok(mut file) => {
            let mut pair = [0u8; 16];
            let left = console::each_record(&mut file, &mut pair, |pair| answer(&rt, pair))?;
            if left > 0 {
                rt.println("short")
            } else {
                Ok(())
            }
        }
        Err(why) => console::fail(&rt, b"pairs", why),
    }
}
