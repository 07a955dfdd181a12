// What the program's arguments ask for.
use std::fmt;
use std::fmt::Display;

// How to use it.
pub const USAGE: &str =
    "zov ZONES BLOCKS [OUT.zov]   list the overlay of two map files; write its overlay file
zov --bed BED ZONES BLOCKS [OUT.zov]   the same with a third map
zov --melt [--bed BED] ZONES BLOCKS [OUT.zov]   the same without the lines that separate nothing
zov --list FILE.zov          list an overlay file
zov --edges FILE.zov         list its edges: number, lower and upper vertex, sources
zov --check FILE...          check map files, a line for each
zov --help, zov --version    this; the version
";

// An overlay that is asked for: whether it is to be melted, the names of the maps, and where it is to be written.
#[derive(Clone, Copy)]
pub struct Order<'a> {
    // a word of the user's, asked in two places: closures would be no plainer
    pub melts: bool,
    pub zones: &'a [u8],
    pub blocks: &'a [u8],
    pub bed: Option<&'a [u8]>,
    pub out: Option<&'a [u8]>,
}

#[derive(Clone, Copy)]
pub enum Task<'a> {
    Help,
    Version,
    List(&'a [u8]),
    Edges(&'a [u8]),
    Check(&'a [&'a [u8]]),
    Overlay(Order<'a>),
}

// Why words ask for nothing.
#[derive(Clone, Copy)]
pub enum Misuse {
    Unknown,
    OneFile,
    SameName,
}

impl Display for Misuse {
    fn fmt<W: fmt::Write>(&self, f: &mut fmt::Formatter<W>) -> fmt::Result {
        f.write_str(match self {
            Misuse::Unknown => USAGE,
            Misuse::OneFile => "--list and --edges take one overlay file; nothing is read\n",
            Misuse::SameName => {
                "the overlay file would overwrite one of the maps; nothing is read or written\n"
            }
        })
    }
}

// The task of the words behind the program's name, and whether a word is too long to be read but begins like an option: no map has such a name.
pub fn asked<'a>(words: &'a [&'a [u8]], long_option: bool) -> Result<Task<'a>, Misuse> {
    match words {
        [b"--help"] => Ok(Task::Help),
        [b"--version"] => Ok(Task::Version),
        [b"--list", name] => Ok(Task::List(name)),
        [b"--edges", name] => Ok(Task::Edges(name)),
        [b"--list" | b"--edges", _, ..] => Err(Misuse::OneFile),
        [b"--check", names @ ..] if !names.is_empty() => Ok(Task::Check(names)),
        _ if long_option => Err(Misuse::Unknown),
        [b"--melt", b"--bed", bed, maps @ ..] => overlay(true, Some(bed), maps),
        [b"--melt", maps @ ..] => overlay(true, None, maps),
        [b"--bed", bed, maps @ ..] => overlay(false, Some(bed), maps),
        maps => overlay(false, None, maps),
    }
}

// The overlay of maps: zones and blocks, and where to write it.
fn overlay<'a>(melts: bool, bed: Option<&'a [u8]>, maps: &[&'a [u8]]) -> Result<Task<'a>, Misuse> {
    let (zones, blocks, out) = match maps {
        [zones, blocks] => (*zones, *blocks, None),
        [zones, blocks, out] => (*zones, *blocks, Some(*out)),
        _ => return Err(Misuse::Unknown),
    };
    let names = [Some(zones), Some(blocks), bed];
    if is_option(out) || names.into_iter().any(is_option) {
        return Err(Misuse::Unknown);
    }
    if out.is_some() && names.contains(&out) {
        return Err(Misuse::SameName);
    }
    Ok(Task::Overlay(Order {
        melts,
        zones,
        blocks,
        bed,
        out,
    }))
}

// Whether a word begins like an option. A file of such a name is given as `./--name`.
fn is_option(word: Option<&[u8]>) -> bool {
    word.is_some_and(|word| word.starts_with(b"--"))
}
