// Lists the edges of overlay files: for each file named as an argument a line for each edge, or the line of what it is refused for.
#![tactic(auto)]

use std::io;

fn main(rt: HostRuntime) -> io::Result<()> {
    console::each_input(&rt, |file| {
        let _ = console::say_edges(&rt, file)?;
        Ok(())
    })
}
