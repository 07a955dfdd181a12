// Many overlays: a line for each three map files in the pack `pairs` (second/README.md), the answer and a digest of all tables; the two ways to collect the vertices
// must give the same. Then many files mended, and then three map files at a time melted, of the pack `melts`. What is printed is held to the second program's answers.
#![tactic(auto)]

mod digest; // the digest of what is lent
mod lent; // the tables that are lent
mod mends; // files mended
mod pack; // the numbers and files of a pack
mod sheets; // three maps laid over each other, or melted

use lent::Tables;
use sheets::Maps;
use std::io;

fn main(rt: HostRuntime) -> io::Result<()> {
    pack::each(&rt, "pairs", |pack| {
        let (maps, rows) = sheets::next(rt.alloc(), pack)?;
        if !sheets::ways_agree(rt.alloc(), &maps, rows)? {
            rt.print("the ways differ: ")?;
        }
        let mut tables = Tables::new(rt.alloc(), rows, 0, 0)?;
        let answer = maps.lay(&mut tables);
        sheets::say_answer(&rt, answer, &tables)
    })?;
    pack::each(&rt, "mends", |pack| mends::next(&rt, pack))?;
    pack::each(&rt, "melts", |pack| {
        let (maps, rows) = sheets::next(rt.alloc(), pack)?;
        let mut tables = Tables::new(rt.alloc(), rows, 0, 0)?;
        let answer = maps.melt(&mut tables);
        sheets::say_answer(&rt, answer, &tables)
    })
}
