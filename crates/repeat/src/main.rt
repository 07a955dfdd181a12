// repeat ZONES BLOCKS N: runs the overlay of two map files N times (at most 1,000,000) by either way to collect the vertices, and prints for each the seconds that one
// run takes, then the answer.
#![tactic(auto)]

mod time; // seconds
mod words; // the number of runs

ghost use Rattle.std.specs.Prelude.{◌≤◌};

use console::{Input, word};
use limits::{FACE_CELLS, HALF_CELLS, SOURCE_CELLS, VERTEX_CELLS};
use overlay_graph::Way;
use overlay_maps::EMPTY;
use std::io;
use std::io::Print;
use std::time::CpuClock;
use tables::Answer;
use time::Seconds;
use words::count_of;

fn say_answer(rt: &impl Print, answer: Answer) -> io::Result<()> {
    match answer {
        Ok(c) => println!(rt; "done {} {} {}", c.vertices, c.edges, c.faces),
        Err(r) => console::say_refused(rt, r),
    }
}

// One run, in tables of its own, of fixed memory so that no allocation is measured; the third map is empty.
fn run(way: Way, zones: &[u8], blocks: &[u8]) -> Answer {
    let mut vertices = [0i64; VERTEX_CELLS];
    let mut halves = [0u16; HALF_CELLS];
    let mut sources = [0u32; SOURCE_CELLS];
    let mut faces = [0u16; FACE_CELLS];
    let bed = EMPTY;
    overlay::overlay_by(
        way,
        zones,
        blocks,
        &bed,
        &mut vertices,
        &mut halves,
        &mut sources,
        &mut faces,
    )
}

// So many runs, and the answer of one more.
fn runs(way: Way, zones: &[u8], blocks: &[u8], n: u32) -> Answer {
    for _ in 0..n {
        let _ = run(way, zones, blocks);
    }
    run(way, zones, blocks)
}

// By one way, under its name.
fn measure(
    rt: &(impl CpuClock + Print),
    name: &str,
    way: Way,
    zones: &[u8],
    blocks: &[u8],
    n: u32,
) -> io::Result<()>
    requires { n ≤ 1000000 }
{
    let start = rt.process_cpu_time()?;
    let answer = runs(way, zones, blocks, n);
    let end = rt.process_cpu_time()?;
    let time = Seconds::of_one(start, end, n + 1);
    println!(rt; "{name} {time}")?;
    say_answer(rt, answer)
}

fn main(rt: HostRuntime) -> io::Result<()> {
    let args = console::args(&rt)?;
    let n = count_of(word(&args, 2));
    if n == 0 {
        return rt.println(
            "repeat ZONES BLOCKS N   the seconds of one overlay of two map files, the plain way and by the sweep, by N runs of each",
        );
    }
    let zones = Input::load_map(&rt, word(&args, 0))?;
    let blocks = Input::load_map(&rt, word(&args, 1))?;
    measure(&rt, "plain", Way::Plain, &zones.bytes, &blocks.bytes, n - 1)?;
    measure(&rt, "swept", Way::Swept, &zones.bytes, &blocks.bytes, n - 1)
}
