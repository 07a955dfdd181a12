// tides FILE: heights of tide, a line for each record of the file, `height BITS MILLIMETRES RULE` or `refused N map 0 place 0`. BITS are the float's, in 16
// hexadecimal digits; RULE is `ratio BITS` or `weights BITS BITS`. A record has 32 bytes (src/record.rt); a part of one at the end is left out.
#![tactic(auto)]

mod record; // a record's rule and readings
mod line; // the line of an answer

use crate::line::Line;
use crate::record::{RECORD, reading, rule};
use std::io;
use std::io::Print;

fn report(rt: &impl Print, record: &[u8]) -> io::Result<()> {
    match tide::height(rule(record), reading(record, 0), reading(record, 1)) {
        Ok(h) => rt.println(Line(h)),
        Err(r) => console::say_refused(rt, r),
    }
}

// Of a file that cannot be opened nothing is said.
fn main(rt: HostRuntime) -> io::Result<()> {
    let args = console::args(&rt)?;
    if let Ok(mut file) = console::open(&rt, console::word(&args, 0)) {
        let mut record = [0u8; RECORD];
        console::each_record(&mut file, &mut record, |record| report(&rt, record))?;
    }
    Ok(())
}
