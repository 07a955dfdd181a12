// The program's arguments, its own name left out. They are bytes: a name need not be text.
use std::env::FillError;
use std::io::Result;
use std::rt::Env;

// All of them. One longer than any path counts as empty.
pub fn args(rt: &(impl Env + AllocGlobal)) -> Result<Vec<Vec<u8>>> {
    let mut all = Vec::new(rt.alloc());
    for i in 1..usize::MAX {
        let Some(arg) = arg(rt, i)? else {
            break;
        };
        all.push(arg)?;
    }
    Ok(all)
}

fn arg(rt: &(impl Env + AllocGlobal), i: usize) -> Result<Option<Vec<u8>>> {
    let mut buf = io::buffer();
    let n = match rt.arg(i, &mut buf) {
        Ok(n) => n,
        Err(FillError::TooLong) => 0,
        Err(FillError::NotPresent) => return Ok(None),
    };
    Ok(Some(buf[..n].to_vec(rt.alloc())?))
}

// One of them, which counts as empty where it is not there.
pub fn word(args: &[Vec<u8>], i: usize) -> &[u8] {
    match args.get(i) {
        Some(arg) => arg,
        None => &[],
    }
}

// Whether one that is longer than any path begins like an option.
pub fn any_long_option(rt: &impl Env) -> bool {
    for i in 1..usize::MAX {
        let mut buf = io::buffer();
        match rt.arg(i, &mut buf) {
            Err(FillError::TooLong) if buf.starts_with(b"--") => return true,
            Err(FillError::NotPresent) => return false,
            _ => {}
        }
    }
    false
}
