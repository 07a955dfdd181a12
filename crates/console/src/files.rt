// Files by name. "A file that cannot be opened counts as empty": as a file of 0 bytes. A path is text: a name that is not UTF-8 names no file that can be opened.
ghost use Rattle.io.specs.Counts.{IsPrefixLen};

use crate::arguments::args;
use std::fmt::{InlineText, Write as _};
use std::fs;
use std::io::{Eprint, Error, ErrorKind, Print, Read, Result};
use std::rt::{Env, Files};

// More bytes than the longest overlay file has. So many are enough: a longer file is refused as its whole length would be.
const MOST: usize = 65536;

// The same of a map file. No more is read of one, so that what is no map and does not end is refused at once.
const MAP_MOST: usize = 4096;

// A file that is asked for by name, and its first bytes.
#[derive(Drop)]
pub struct Input<'a> {
    pub name: &'a [u8],
    pub bytes: Vec<u8>,
    is_missing: bool,
}

impl<'a> Input<'a> {
    pub fn load<R: Files + AllocGlobal>(rt: &R, name: &'a [u8]) -> Result<Self> {
        Input::load_most(rt, name, MOST)
    }

    // Of a map file.
    pub fn load_map<R: Files + AllocGlobal>(rt: &R, name: &'a [u8]) -> Result<Self> {
        Input::load_most(rt, name, MAP_MOST)
    }

    // At most so many bytes of it.
    pub fn load_most<R: Files + AllocGlobal>(rt: &R, name: &'a [u8], most: usize) -> Result<Self> {
        let Ok(mut file) = open(rt, name) else {
            return Ok(Input {
                name,
                bytes: Vec::new(rt.alloc()),
                is_missing: true,
            });
        };
        let mut bytes = vec![in rt.alloc(); 0; most]?;
        let n = read_full(&mut file, &mut bytes);
        bytes.truncate(n);
        Ok(Input {
            name,
            bytes,
            is_missing: false,
        })
    }

    pub fn say_name(&self, rt: &impl Print) -> Result<()> {
        say_name(rt, self.name)
    }

    // "cannot open NAME", if that is so. It is said after the answer, which has taken it as a file of 0 bytes.
    pub fn say_missing(&self, rt: &impl Print) -> Result<()> {
        if self.is_missing {
            rt.print("cannot open ")?;
            rt.write_all(self.name)?;
            rt.print("\n")?;
        }
        Ok(())
    }
}

// "NAME: "
pub fn say_name(rt: &impl Print, name: &[u8]) -> Result<()> {
    rt.write_all(name)?;
    rt.print(": ")
}

// The same done with the bytes of each file that an argument names.
pub fn each_input<R: Files + Env + AllocGlobal, F: Fn(&[u8]) -> Result<()>>(
    rt: &R,
    each: F,
) -> Result<()>
    requires { F.IsAlwaysCallable each }
{
    each_most(rt, MOST, each)
}

// Of map files.
pub fn each_map<R: Files + Env + AllocGlobal, F: Fn(&[u8]) -> Result<()>>(
    rt: &R,
    each: F,
) -> Result<()>
    requires { F.IsAlwaysCallable each }
{
    each_most(rt, MAP_MOST, each)
}

fn each_most<R: Files + Env + AllocGlobal, F: Fn(&[u8]) -> Result<()>>(
    rt: &R,
    most: usize,
    each: F,
) -> Result<()>
    requires { F.IsAlwaysCallable each }
{
    let names = args(rt)?;
    for name in &names {
        let input = Input::load_most(rt, name, most)?;
        each(&input.bytes)?;
    }
    Ok(())
}

// Reads until a buffer is full, the input ends or a read fails, and answers how many bytes stand at the buffer's start.
// A `while` and a length: no iterator reads on like that, and the clause IsPrefixLen is what those that lend a buffer stand on.
pub fn read_full<R: Read>(file: &mut R, buf: &mut [u8]) -> usize
    ensures { IsPrefixLen result buf.new }
{
    let mut done = 0;
    while done < buf.len() {
        let n = file.read(&mut buf[done..]).unwrap_or(0);
        if n == 0 {
            break;
        }
        done += n;
    }
    done
}

// The file of a name, opened for reading.
pub fn open<R: Files>(rt: &R, name: &[u8]) -> Result<R::File> {
    fs::open(rt, text_of(name)?)
}

// A name as text.
fn text_of(name: &[u8]) -> Result<&str> {
    std::str::from_utf8(name).map_err(|_| Error::from(ErrorKind::InvalidInput))
}

// Writes the file of a name, so that what stood there is gone, or says why that cannot be done.
pub fn save(rt: &(impl Files + Eprint), name: &[u8], bytes: &[u8]) -> Result<()> {
    match write(rt, name, bytes) {
        Ok(()) => Ok(()),
        Err(why) => fail(rt, name, why),
    }
}

fn write(rt: &impl Files, name: &[u8], bytes: &[u8]) -> Result<()> {
    fs::write(rt, text_of(name)?, bytes)
}

// Says on standard error why something cannot be done to the file of a name: in the words of the error, without the number that stands behind them.
pub fn fail(rt: &impl Eprint, name: &[u8], why: Error) -> Result<()> {
    let mut said = InlineText::<320>::new();
    let _ = write!(said, "{why}");
    let said = said.as_str();
    let words = said
        .split_once(" (os error ")
        .map_or(said, |(words, _)| words);
    let name = text_of(name).unwrap_or("the file");
    eprintln!(rt; "{name}: {words}")
}

#[cfg(test)]
mod tests {
    use super::*;
    use crate::arguments::word;
    use std::result;
    use std::test::Fail;

    // With memory enough, a file is there as far as is asked for, and one that cannot be opened counts as empty.
    #[test]
    fn loads_what_is_asked_for(rt: HostRuntime) -> result::Result<(), Fail> {
        let most = Input::load(&rt, b"/dev/zero")?;
        assert_eq!(rt; most.bytes.len(), MOST);
        let map = Input::load_map(&rt, b"/dev/zero")?;
        assert_eq!(rt; map.bytes.len(), MAP_MOST);
        let some = Input::load_most(&rt, b"/dev/zero", 9)?;
        assert_eq!(rt; some.bytes.len(), 9);
        let missing = Input::load(&rt, b"no such file")?;
        assert_eq!(rt; missing.bytes.len(), 0);
        assert_eq!(rt; missing.is_missing, true);
        Ok(())
    }

    // An argument that is not there counts as empty.
    #[test]
    fn takes_the_arguments(rt: HostRuntime) -> result::Result<(), Fail> {
        let words = args(&rt)?;
        assert_eq!(rt; word(&words, words.len()).len(), 0);
        Ok(())
    }
}
