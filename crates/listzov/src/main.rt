// Lists overlay files: for each file named as an argument its listing, or the line of what it is refused for.
#![tactic(auto)]

use limits::LISTING;
use std::io;
use std::io::Print;

fn list(rt: &impl Print, file: &[u8]) -> io::Result<()> {
    let mut out = [0u8; LISTING];
    let listed = lists::from_file::list(file, &mut out);
    let length = listed.length;
    rt.write_all(&out[..length])
}

fn main(rt: HostRuntime) -> io::Result<()> {
    console::each_input(&rt, |file| list(&rt, file))
}
