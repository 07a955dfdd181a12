// Map files, checked.
use console::{Input, Place, Refused, Sentence};
use map_file::Refusal;
use std::io::{Print, Result};
use std::rt::Files;

// What 01's line says, and then a sentence.
fn say_bad(rt: &impl Print, r: Refusal, file: &[u8]) -> Result<()> {
    let line = Refused(r);
    match Place::new(file, r) {
        Some(place) => println!(rt; "{line}: {place}"),
        None => println!(rt; "{line}: {}", Sentence(r)),
    }
}

// A line for a map file: its name, and `ok V E` or what it is refused for. Answers whether it is good.
fn check_one(rt: &(impl Files + AllocGlobal + Print), name: &[u8]) -> Result<bool> {
    // The name first: where the file does not end it is known which one it is.
    console::say_name(rt, name)?;
    let file = Input::load_map(rt, name)?;
    match map_check::check(&file.bytes) {
        Ok(c) => {
            println!(rt; "ok {} {}", c.vertices, c.edges)?;
            Ok(true)
        }
        Err(r) => {
            say_bad(rt, r, &file.bytes)?;
            file.say_missing(rt)?;
            Ok(false)
        }
    }
}

// Map files, a line each; of several a last line with how many are good.
pub fn check(rt: &(impl Files + AllocGlobal + Print), names: &[&[u8]]) -> Result<()> {
    let mut good = 0usize;
    for name in names {
        if check_one(rt, name)? {
            good = good.saturating_add(1);
        }
    }
    if names.len() > 1 {
        println!(rt; "{} files, {good} good", names.len())?;
    }
    Ok(())
}
