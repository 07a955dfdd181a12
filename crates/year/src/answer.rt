// What comes of the whole run: 17, 18, 19 and 20, in this order, or the pairs and the gaps.
ghost use Rattle.std.specs.Prelude.{◌≡◌, not, ◌&&◌, []};
ghost use Rattle.paper.specs.Names.{whole_names};
ghost use Rattle.map_file.specs.Verdict.{verdict};
ghost use Rattle.laws_year.specs.Step.{bad_fault};
ghost use Rattle.laws_year.specs.Capped.{cap_fault, cap_answer};
ghost use Rattle.year.specs.Stated.{minus_one, state_of, year_state};
ghost use Rattle.year.specs.Closing.{closed_of};

use crate::state::{Sums, Year};
use limits::{YEAR_FILES, YEAR_PAIRS};
use map_file::{Check, Refusal, given};
use names::whole;

// The pairs, as so many rows of the year's table, and the gaps.
#[derive(Clone, Copy, PartialEq, Eq, Debug)]
pub struct Totals {
    pub pairs: u16,
    pub gaps: u32,
}

// Whether one of two lists ends inside an entry.
fn torn(zones: &[u8], blocks: &[u8]) -> bool
    ensures { result ≡ not (whole_names zones.now && whole_names blocks.now) }
{
    !whole(zones) || !whole(blocks)
}

// 17, by the number of the first bad file + 1, or 0.
fn bad_file(bad: u16) -> Check
    ensures { verdict result ≡ bad_fault (minus_one bad) }
{
    if bad == 0 {
        return Ok(());
    }
    given(17, bad - 1, true)
}

// What the year is refused for.
fn fault(sums: Sums, zones: &[u8], blocks: &[u8]) -> Check
    ensures { verdict result ≡ cap_fault (state_of [] sums) zones.now blocks.now }
{
    bad_file(sums.bad)?;
    given(18, 0, YEAR_FILES < sums.files)?;
    given(19, 0, YEAR_PAIRS < sums.pairs)?;
    given(20, 0, torn(zones, blocks))
}

// What comes of the files that were added, with two lists of names.
pub fn close(year: Year, zones: &[u8], blocks: &[u8]) -> Result<Totals, Refusal>
    ensures { closed_of year.rows result ≡ cap_answer (year_state year) zones.now blocks.now }
{
    let sums = year.sums;
    fault(sums, zones, blocks)?;
    Ok(Totals {
        pairs: sums.pairs as u16,
        gaps: sums.gaps,
    })
}
