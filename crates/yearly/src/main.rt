// yearly ZONE-NAMES BLOCK-NAMES FILE...: the year in whole numbers. For each pair of zone and block that occurs on a face other than 0 of the overlay files a line `ZONE BLOCK SHEETS FACES NAME`,
// sorted by pair, then `gaps N`; or the line of what is refused. A list of names that cannot be opened is an empty one. Every hundred files a line on standard error says how far it is.
#![tactic(auto)]

use console::{Input, word};
use limits::TALLY_WIDTH;
use std::io;
use std::io::{Eprint, Print};
use std::rt::Files;
use year::Year;

// One byte more than the longest list of names that is taken.
const NAMES: usize = 131073;

// All overlay files of these names, in order, one in memory at a time; for a long run it is said how many were read.
fn add_all(rt: &(impl Files + AllocGlobal + Eprint), names: &[Vec<u8>]) -> io::Result<Year> {
    let mut so_far = year::begin();
    for (i, name) in names.iter().enumerate() {
        let file = Input::load(rt, name)?;
        so_far = year::add(so_far, &file.bytes);
        if i % 100 == 99 {
            eprintln!(rt; "{} files read", i + 1)?;
        }
    }
    Ok(so_far)
}

// Labels are of 16 bits.
fn label(cell: u32) -> u16 {
    (cell % 65536) as u16
}

// `ZONE BLOCK SHEETS FACES NAME` for each pair: the name's bytes as they stand in their list.
fn say_rows(
    rt: &impl Print,
    rows: &[u32],
    pairs: u16,
    zones: &[u8],
    blocks: &[u8],
) -> io::Result<()> {
    for row in rows.chunks_exact(TALLY_WIDTH).take(pairs as usize) {
        if let [zone, block, sheets, faces, _] = row {
            print!(rt; "{zone} {block} {sheets} {faces} ")?;
            rt.write_all(names::name(zones, blocks, label(*zone), label(*block)))?;
            rt.print("\n")?;
        }
    }
    Ok(())
}

fn say_year(rt: &impl Print, so_far: Year, zones: &[u8], blocks: &[u8]) -> io::Result<()> {
    let rows = so_far.rows;
    match year::close(so_far, zones, blocks) {
        Ok(t) => {
            say_rows(rt, &rows, t.pairs, zones, blocks)?;
            println!(rt; "gaps {}", t.gaps)
        }
        Err(r) => console::say_refused(rt, r),
    }
}

fn main(rt: HostRuntime) -> io::Result<()> {
    let args = console::args(&rt)?;
    let zones = Input::load_most(&rt, word(&args, 0), NAMES)?;
    let blocks = Input::load_most(&rt, word(&args, 1), NAMES)?;
    if zones.bytes.len() == NAMES || blocks.bytes.len() == NAMES {
        return rt.eprintln("a list of names is longer than 131072 bytes");
    }
    let files = args.get(2..).unwrap_or(&[]);
    let so_far = add_all(&rt, files)?;
    say_year(&rt, so_far, &zones.bytes, &blocks.bytes)
}
