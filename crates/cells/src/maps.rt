// The list counted in the two maps, and what is printed: `ZONE BLOCK COUNT` for each pair and then `read N`, or a refusal.
ghost use Rattle.soundings.specs.Unique.{Read};

use crate::batches::read_batches;
use console::{Clash, Sentence, say_refused};
use limits::{FACES, PAIR_CELLS, PAIR_WIDTH};
use map_file::Refusal;
use soundings::{Cells, Count, begin, close};
use std::io;
use std::io::Print;
use std::rt::Files;

// Two map files of any bytes, and the list of a name.
pub fn count(
    rt: &(impl Files + Print),
    zones: &[u8],
    blocks: &[u8],
    list: &[u8],
) -> io::Result<()> {
    let mut labels = [0u16; PAIR_CELLS];
    let mut counts = [0u32; FACES];
    let start = begin(zones, blocks);
    let count = read_list(rt, list, start);
    match close(count, &mut labels, &mut counts) {
        Ok(cells) => say_cells(rt, cells, &labels, &counts),
        Err(r) => explain(rt, r, zones, blocks),
    }
}

// From a list that cannot be opened nothing is read: it is one of 0 bytes.
fn read_list(rt: &impl Files, list: &[u8], start: Count) -> Count
    ensures { Read start result }
{
    match console::open(rt, list) {
        Ok(mut file) => read_batches(&mut file, start),
        Err(_) => read_batches(&mut io::empty(), start),
    }
}

// The pairs. "The program prints the sum over all soundings and both maps."
fn say_cells(rt: &impl Print, cells: Cells, labels: &[u16], counts: &[u32]) -> io::Result<()> {
    let rows = labels.chunks_exact(PAIR_WIDTH).zip(counts);
    for (pair, count) in rows.take(cells.entries as usize) {
        if let [zone, block] = pair {
            println!(rt; "{zone} {block} {count}")?;
        }
    }
    println!(rt; "read {}", cells.read)
}

// The line of 01, and then a sentence; of refusal 8 how the two edges of that file meet.
fn explain(rt: &impl Print, r: Refusal, zones: &[u8], blocks: &[u8]) -> io::Result<()> {
    say_refused(rt, r)?;
    match r {
        Refusal {
            number: 8,
            map: 1,
            ..
        } => rt.println(Clash::new(zones, r)),
        Refusal { number: 8, .. } => rt.println(Clash::new(blocks, r)),
        _ => rt.println(Sentence(r)),
    }
}
