// Soundings by cell: cells ZONES BLOCKS LIST. A line `ZONE BLOCK COUNT` for each pair that occurs, sorted by pair, and then `read N`, the number of edges that the looks read; or the line of a refusal, and then a sentence. The list is read in batches
// of at most 4,096 soundings; one that cannot be opened is a list of 0 bytes.
#![tactic(auto)]

mod batches; // the list, batch by batch
mod maps; // the two maps, and what is printed

use console::Input;
use std::io;

fn main(rt: HostRuntime) -> io::Result<()> {
    let args = console::args(&rt)?;
    let [zones, blocks, list] = args.as_slice() else {
        return rt.println(
            "cells ZONES BLOCKS LIST   count the soundings of a list by zone and block",
        );
    };
    let zones = Input::load_map(&rt, zones)?;
    let blocks = Input::load_map(&rt, blocks)?;
    maps::count(&rt, &zones.bytes, &blocks.bytes, list)
}
