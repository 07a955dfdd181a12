// The year for C, in three steps: the state goes in and comes back by value, with the pairs in its table.
ghost use Rattle.std.specs.Prelude.{◌≡◌};
ghost use Rattle.paper.specs.Year.{sheet_of};
ghost use Rattle.laws_year.specs.Capped.{cap_start, cap_answer};
ghost use Rattle.year.specs.Stated.{year_state, next};
ghost use Rattle.bonnetewe.specs.ToldYear.{told_year, told_closed};

use crate::answer::join;
use map_file::Refusal;
use year::{Totals, Year};

// The pairs and the gaps above a 0, or the refusal.
fn of_closed(closed: Result<Totals, Refusal>) -> u64
    ensures { result ≡ told_closed closed }
{
    match closed {
        Ok(t) => 65536 * (t.pairs as u64 + 65536 * t.gaps as u64),
        Err(r) => join(r.number, r.map, r.place, r.other),
    }
}

// No file yet.
#[unsafe(no_mangle)]
pub extern "C" fn bonnetewe_year_begin() -> Year
    ensures { year_state result ≡ cap_start }
{
    year::begin()
}

// One overlay file more, of any bytes.
#[unsafe(no_mangle)]
pub extern "C" fn bonnetewe_year_add(year: Year, file: &[u8]) -> Year
    ensures { year_state result ≡ next (year_state year) (sheet_of file.now) }
{
    year::add(year, file)
}

// What comes of the files with two lists of names: done with the number of pairs, which are so many rows of the year's table, and the gaps; or refused.
#[unsafe(no_mangle)]
pub extern "C" fn bonnetewe_year_close(year: Year, zones: &[u8], blocks: &[u8]) -> u64
    ensures { result ≡ told_year (cap_answer (year_state year) zones.now blocks.now) }
{
    let closed = year::close(year, zones, blocks);
    of_closed(closed)
}
