// zov, the overlay for daily use:
//   zov ZONES BLOCKS [OUT]             lists the overlay of two map files, and writes its overlay file to OUT
//   zov --bed BED ZONES BLOCKS [OUT]   the same with a third map
//   zov --melt [--bed BED] ZONES BLOCKS [OUT]   the same with the cells melted together: without the lines that separate nothing
//   zov --list FILE                    lists an overlay file
//   zov --edges FILE                   lists its edges
//   zov --check FILE...                checks map files, a line for each; of several, how many are good
//   zov --help, zov --version          how to use it; its version
// A refusal is the line of 01, and then a sentence; of a map that is checked in one line, behind its name.
#![tactic(auto)]

mod words; // the program's arguments
mod maps; // map files
mod overlays; // overlay files

use std::io;
use words::{Task, USAGE};

fn main(rt: HostRuntime) -> io::Result<()> {
    let args = console::args(&rt)?;
    let words: Vec<&[u8]> = args.iter().map(Vec::as_slice).collect(rt.alloc())?;
    match words::asked(&words, console::any_long_option(&rt)) {
        Ok(Task::Help) => print!(rt; "zov: an exact, proved overlay of maps\n{USAGE}"),
        Ok(Task::Version) => rt.println("zov 0.13"),
        Ok(Task::List(name)) => overlays::list(&rt, name),
        Ok(Task::Edges(name)) => overlays::edges(&rt, name),
        Ok(Task::Check(names)) => maps::check(&rt, names),
        Ok(Task::Overlay(order)) => overlays::lay(&rt, order),
        Err(why) => rt.print(why),
    }
}
