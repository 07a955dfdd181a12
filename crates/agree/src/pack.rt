// The numbers and files of a pack, one behind the other, read as they are asked for. Past its end all numbers are 0.
use std::alloc::{AllocError, Global};
use std::fs;
use std::io::{Eprint, Print, Read, Result};
use std::rt::Files;

// What is left of it.
#[derive(Drop)]
pub struct Pack<F: Read + Drop> {
    rest: F,
}

impl<F: Read + Drop> Pack<F> {
    // The next n bytes, or as many as there are.
    pub fn bytes(&mut self, alloc: Global, n: u16) -> std::result::Result<Vec<u8>, AllocError> {
        let mut bytes = vec![in alloc; 0u8; n as usize]?;
        let k = console::read_full(&mut self.rest, &mut bytes);
        bytes.truncate(k);
        Ok(bytes)
    }

    // A number of 16 bits, low byte first.
    pub fn number(&mut self) -> u16 {
        let mut bytes = [0u8; 2];
        console::read_full(&mut self.rest, &mut bytes);
        u16::from_le_bytes(bytes)
    }
}

// A line for each entry of the pack of a name, which the entry's number begins.
pub fn each<R: Files + AllocGlobal + Print + Eprint, F: FnMut(&mut Pack<R::File>) -> Result<()>>(
    rt: &R,
    name: &str,
    mut entry: F,
) -> Result<()>
    requires { F.IsAlwaysCallable entry }
{
    let mut pack = match fs::open(rt, name) {
        Ok(rest) => Pack { rest },
        Err(why) => return console::fail(rt, name.as_bytes(), why),
    };
    for i in 0..pack.number() {
        print!(rt; "{i} ")?;
        entry(&mut pack)?;
    }
    Ok(())
}
