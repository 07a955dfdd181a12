// Mends a map file: mendmap IN OUT. A line for each thing done, then the check's line of the mended file. A refusal is the line of 01, and then a sentence; OUT
// is not written then, and it may not be IN.
#![tactic(auto)]

mod step; // what was done

use console::{Input, MendSentence};
use mend::{MEND_FILE, MEND_LIST, Mending};
use std::io;
use std::io::{Eprint, Print};
use std::rt::Files;
use step::say_list;

// What was done, and the mended file.
fn say_mended(
    rt: &(impl Files + Print + Eprint),
    done: Mending,
    file: &[u8],
    list: &[u16],
    out: &[u8],
) -> io::Result<()> {
    say_list(rt, list, done.entries)?;
    let file = file.get(..done.length as usize).unwrap_or(file);
    console::say_check(rt, file)?;
    console::save(rt, out, file)
}

// Mends a file's bytes, and writes the mended file to OUT.
fn mend(rt: &(impl Files + Print + Eprint), file: &[u8], out: &[u8]) -> io::Result<()> {
    let mut mended = [0u8; MEND_FILE];
    let mut list = [0u16; MEND_LIST];
    match mend::mend(file, &mut mended, &mut list) {
        Ok(m) => say_mended(rt, m, &mended, &list, out),
        Err(r) => {
            console::say_refused(rt, r)?;
            rt.println(MendSentence(r))
        }
    }
}

fn main(rt: HostRuntime) -> io::Result<()> {
    let args = console::args(&rt)?;
    let [from, to] = args.as_slice() else {
        return rt.println("mendmap IN.zmp OUT.zmp   mend a map file, and list what was done");
    };
    if from == to {
        return rt.println("the mended file would overwrite the map; nothing is read or written");
    }
    let file = Input::load_map(&rt, from)?;
    mend(&rt, &file.bytes, to)
}
