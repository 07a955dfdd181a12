// The year so far, which goes in and comes back by value; and whether a file's faces can be added to every count of it.
ghost use Rattle.std.specs.Prelude.{◌≡◌, ◌+◌, ◌*◌, ◌≤◌, min, length};
ghost use Rattle.seq.specs.HowMany.{how_many};
ghost use Rattle.paper.specs.Limits.{year_pairs};
ghost use Rattle.laws_year.specs.Capped.{cap_start};
ghost use Rattle.year.specs.TallyRows.{tally_width, tally_at, tallies_in};
ghost use Rattle.year.specs.Stated.{state_of, year_state, is_full, has_room};

use limits::{OVERLAY_FACES, TALLY_CELLS, TALLY_WIDTH, YEAR_PAIRS};

// How many pairs there are, where a number over 500 says no more than that; the gaps; the files, where 401 says that there are more than 400; and the
// number of the first bad file + 1, or 0.
#[repr(C)]
#[derive(Clone, Copy)]
pub struct Sums {
    pub pairs: usize,
    pub gaps: u32,
    pub files: u16,
    pub bad: u16,
}

// With the pairs, in order, in rows of zone, block, sheets, faces, and the last file that has the pair.
#[repr(C)]
#[derive(Drop)]
pub struct Year {
    pub rows: [u32; TALLY_CELLS],
    pub sums: Sums,
}

// No file yet.
pub fn begin() -> Year
    ensures { year_state result ≡ cap_start }
{
    Year {
        rows: [0; TALLY_CELLS],
        sums: Sums {
            pairs: 0,
            gaps: 0,
            files: 0,
            bad: 0,
        },
    }
}

// The largest count to which a file's faces can be added.
const ROOMY: u32 = 4294967295 - OVERLAY_FACES as u32;

// Whether a count of row r is over it.
fn full(rows: &[u32], r: usize) -> bool
    requires { tally_width * r + tally_width ≤ length rows.now }
    ensures { result ≡ is_full (tally_at rows.now r) }
{
    let at = TALLY_WIDTH * r;
    ROOMY < rows[at + 2] || ROOMY < rows[at + 3]
}

// In how many of the first n rows one is.
fn full_rows(rows: &[u32], n: usize) -> usize
    requires { tally_width * n ≤ length rows.now }
    ensures { result ≡ how_many is_full (tallies_in rows.now n) }
{
    let mut total = 0;
    for r in 0..n {
        if full(rows, r) {
            total += 1;
        }
    }
    total
}

// The pairs that are in the table.
pub fn kept_pairs(pairs: usize) -> usize
    ensures { result ≡ min year_pairs pairs }
{
    pairs.min(YEAR_PAIRS)
}

// Whether a file's faces can be added to every count. They can after any files; a state that no files give may have counts that leave no room.
pub fn has_room(rows: &[u32], sums: Sums) -> bool
    requires { tally_width * year_pairs ≤ length rows.now }
    ensures { result ≡ has_room (state_of rows.now sums) }
{
    full_rows(rows, kept_pairs(sums.pairs)) == 0 && sums.gaps <= ROOMY
}
