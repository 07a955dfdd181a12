// Checks map files: a line for each file named as an argument, `ok V E` or `refused N map 0 place P`.
#![tactic(auto)]

use std::io;

fn main(rt: HostRuntime) -> io::Result<()> {
    console::each_map(&rt, |file| console::say_check(&rt, file))
}
