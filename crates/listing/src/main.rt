// The listing program (01, "Worked sheets"): reads `zones.zmp` and `blocks.zmp` in the folder that it is started in, and prints the listing of their overlay, or
// what is refused. "The listing still reads its two files, with the third map empty" (02, Ask 13).
#![tactic(auto)]

use console::Input;
use limits::LISTING;
use overlay_maps::EMPTY;
use std::io;

fn main(rt: HostRuntime) -> io::Result<()> {
    let zones = Input::load_map(&rt, b"zones.zmp")?;
    let blocks = Input::load_map(&rt, b"blocks.zmp")?;
    let mut out = [0u8; LISTING];
    let listed = lists::from_maps::list(&zones.bytes, &blocks.bytes, &EMPTY, &mut out);
    let length = listed.length;
    rt.write_all(&out[..length])
}
