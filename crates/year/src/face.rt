// One face more in a table of pairs in order: rows of zone, block, sheets, faces, and the last file that has the pair.
ghost use Rattle.std.specs.Prelude.{◌≡◌, true, ◌&&◌, ◌+◌, ◌*◌, ◌≤◌, ◌<◌, ltb, length};
ghost use Rattle.seq.specs.Seq.{row_stored};
ghost use Rattle.seq.specs.Placed.{place_by};
ghost use Rattle.seq.specs.RowInserted.{row_inserted};
ghost use Rattle.seq.specs.PairOrder.{pair_before, same_pair};
ghost use Rattle.paper.specs.Limits.{year_pairs};
ghost use Rattle.laws_year.specs.Step.{first_face};
ghost use Rattle.laws_year.specs.Capped.{cap_face};
ghost use Rattle.year.specs.TallyRows.{tally_width, tally_at, pair_at, tallies_in, cells_of, again};
ghost use Rattle.year.specs.Risen.{InOrder};
ghost use Rattle.year.specs.Kept.{kept, Few, most};

use limits::{TALLY_WIDTH, YEAR_PAIRS};
use seq::{lift, store};

// Whether the pair in row r comes before this one.
fn earlier(rows: &[u32], r: usize, zone: u32, block: u32) -> bool
    requires { tally_width * r + tally_width ≤ length rows.now }
    ensures { result ≡ pair_before (pair_at rows.now r) (zone, block) }
{
    let at = TALLY_WIDTH * r;
    rows[at] < zone || rows[at] == zone && rows[at + 1] < block
}

// Whether the pairs of the first n rows are in strict order, as after any files: each row is compared with the next.
pub fn in_order(rows: &[u32], n: usize) -> bool
    requires { tally_width * n ≤ length rows.now }
    ensures { result ≡ true → InOrder (tallies_in rows.now n) }
{
    let last = n.saturating_sub(1);
    for k in 0..last {
        let next = TALLY_WIDTH * k + TALLY_WIDTH;
        if !earlier(rows, k, rows[next], rows[next + 1]) {
            return false;
        }
    }
    true
}

// The first of n rows whose pair does not come before this one, or n: one row after the other.
fn place_in_turn(rows: &[u32], n: usize, zone: u32, block: u32) -> usize
    requires { tally_width * n ≤ length rows.now }
    ensures { result ≡ place_by pair_before (zone, block) (pair_at rows.now) n }
{
    for k in 0..n {
        if !earlier(rows, k, zone, block) {
            return k;
        }
    }
    n
}

// The same by halves, of rows in order. By hand, since std's `partition_point` goes over the elements of a slice, and a row here is five of them (in soundings_count it is two, in a table
// of labels alone).
fn place_by_halves(rows: &[u32], n: usize, zone: u32, block: u32) -> usize
    requires fact_1 { tally_width * n ≤ length rows.now }
    requires fact_2 { InOrder (tallies_in rows.now n) }
    ensures { result ≡ place_by pair_before (zone, block) (pair_at rows.now) n }
{
    let mut low = 0;
    let mut high = n;
    while low < high {
        let mid = low + (high - low) / 2;
        if earlier(rows, mid, zone, block) {
            low = mid + 1;
        } else {
            high = mid;
        }
    }
    low
}

// By halves where the rows are known to be in order. `ordered` stays a value: C lends the state, so that only a look at the rows tells.
fn place(rows: &[u32], n: usize, zone: u32, block: u32, ordered: bool) -> usize
    requires fact_1 { tally_width * n ≤ length rows.now }
    requires fact_2 { (ordered ≡ true → InOrder (tallies_in rows.now n)) }
    ensures { result ≡ place_by pair_before (zone, block) (pair_at rows.now) n }
{
    if ordered {
        place_by_halves(rows, n, zone, block)
    } else {
        place_in_turn(rows, n, zone, block)
    }
}

// Whether row r of n has this pair.
fn stands(rows: &[u32], n: usize, r: usize, zone: u32, block: u32) -> bool
    requires { tally_width * n ≤ length rows.now }
    ensures { result ≡ (ltb r n && same_pair (pair_at rows.now r) (zone, block)) }
{
    r < n && rows[TALLY_WIDTH * r] == zone && rows[TALLY_WIDTH * r + 1] == block
}

// The sheets of row r with one more face of this file: the file counts once.
fn sheets(rows: &[u32], r: usize, file: u32) -> u32
    requires fact_1 { tally_width * r + tally_width ≤ length rows.now }
    requires fact_2 { (tally_at rows.now r).sheets ≤ most }
    ensures { result ≡ (again file (tally_at rows.now r)).sheets }
{
    let at = TALLY_WIDTH * r;
    let so_far = rows[at + 2];
    if rows[at + 4] == file {
        so_far
    } else {
        so_far + 1
    }
}

// One face more of this file in row r.
fn count(rows: &mut [u32], r: usize, file: u32)
    requires fact_1 { tally_width * r + tally_width ≤ length rows.old }
    requires fact_2 { ((tally_at rows.old r).sheets ≤ most) × ((tally_at rows.old r).faces ≤ most) }
    ensures { rows.new ≡ row_stored tally_width rows.old r (cells_of (again file (tally_at rows.old r))) }
{
    let s = sheets(rows, r, file);
    let at = TALLY_WIDTH * r;
    let zone = rows[at];
    let block = rows[at + 1];
    let faces = rows[at + 3];
    store(rows, r, [zone, block, s, faces + 1, file]);
}

// A new pair in row r of n, the rows from r on moved up by one.
fn open_row(rows: &mut [u32], n: usize, r: usize, zone: u32, block: u32, file: u32)
    requires fact_1 { tally_width * n + tally_width ≤ length rows.old }
    requires fact_2 { r ≤ n }
    ensures { rows.new ≡ row_inserted tally_width rows.old n r (cells_of (first_face file (zone, block))) }
{
    lift(rows, TALLY_WIDTH * r, TALLY_WIDTH * n, TALLY_WIDTH);
    store(rows, r, [zone, block, 1, 1, file]);
}

// One face of this file with this pair, in a table of n pairs: how many there are, where a number over 500 says no more than that there are more than 500.
pub fn add_face(
    rows: &mut [u32],
    n: usize,
    zone: u32,
    block: u32,
    file: u32,
    ordered: bool,
) -> usize
    requires fact_1 { tally_width * year_pairs ≤ length rows.old }
    requires fact_2 { Few most (kept rows.old n).tallies }
    requires fact_3 { (ordered ≡ true → InOrder (kept rows.old n).tallies) }
    ensures { kept rows.new result ≡ cap_face file (kept rows.old n) (zone, block) }
{
    if YEAR_PAIRS < n {
        return n;
    }
    let r = place(rows, n, zone, block, ordered);
    if stands(rows, n, r, zone, block) {
        count(rows, r, file);
        return n;
    }
    if YEAR_PAIRS <= n {
        return n + 1;
    }
    open_row(rows, n, r, zone, block, file);
    n + 1
}
