// Many files mended: a line for each file in the pack `mends` (second/README.md), the answer and a digest of all that the lent file and the lent list hold.
use crate::digest::Digest;
use crate::pack::Pack;
use console::Refused;
use mend::{MEND_FILE, MEND_LIST};
use std::io::{Print, Read, Result};

// The next file: how many bytes and numbers are lent, its length, the file. What is lent is full of other numbers.
pub fn next<R: AllocGlobal + Print, F: Read + Drop>(rt: &R, pack: &mut Pack<F>) -> Result<()> {
    let room = pack.number().min(MEND_FILE as u16);
    let numbers = pack.number().min(MEND_LIST as u16);
    let n = pack.number();
    let file = pack.bytes(rt.alloc(), n)?;
    let mut out = vec![in rt.alloc(); 255u8; room as usize]?;
    let mut list = vec![in rt.alloc(); 65535u16; numbers as usize]?;
    match mend::mend(&file, &mut out, &mut list) {
        Ok(m) => print!(rt; "done {} {}", m.length, m.entries)?,
        Err(r) => rt.print(Refused(r))?,
    }
    println!(rt; " {}", Digest::of_lent(&out, &list))
}
