// A pair of labels counted into the table of pairs: rows of two labels in one table, how often they occur in the other.
ghost use Rattle.std.specs.Prelude.{◌≡◌, ◌&&◌, ◌∷◌, [], ◌+◌, ◌*◌, ◌≤◌, ◌<◌, eqb, ltb, length, set};
ghost use Rattle.seq.specs.Seq.{insert_by, cell, row_stored};
ghost use Rattle.paper.specs.Soundings.{less_list, lesser, added, once};
ghost use Rattle.laws_soundings.specs.Tally.{total};
ghost use Rattle.seq.specs.Terms.{Ordered};
ghost use Rattle.seq.specs.Placed.{place_by};
ghost use Rattle.seq.specs.Lifted.{lifted};
ghost use Rattle.soundings_count.specs.Entries.{pair_width, the_labels_at, entries_in, most_times, Grown, Rows};

use limits::PAIR_WIDTH;
use seq::{lift, store};

// Whether the pair in row r is less than a, b.
pub fn less(labels: &[u16], r: usize, a: u16, b: u16) -> bool
    requires { pair_width * r + pair_width ≤ length labels.now }
    ensures { result ≡ less_list (the_labels_at labels.now r) (a ∷ b ∷ []) }
{
    let at = PAIR_WIDTH * r;
    labels[at] < a || (labels[at] == a && labels[at + 1] < b)
}

// The first of n rows whose pair is not less than a, b, or n: by halves, as the rows stand in order. The rows lie flat in one table that C lends, and std's `partition_point` takes a slice of rows.
fn place(labels: &[u16], n: usize, a: u16, b: u16) -> usize
    requires fact_1 { pair_width * n ≤ length labels.now }
    requires fact_2 { Rows labels.now n }
    ensures { result ≡ place_by less_list (a ∷ b ∷ []) (the_labels_at labels.now) n }
{
    let mut low = 0;
    let mut high = n;
    while low < high {
        let mid = low + (high - low) / 2;
        if less(labels, mid, a, b) {
            low = mid + 1;
        } else {
            high = mid;
        }
    }
    low
}

// Whether row r of n holds the pair a, b.
fn stands(labels: &[u16], n: usize, r: usize, a: u16, b: u16) -> bool
    requires { pair_width * n ≤ length labels.now }
    ensures { result ≡ (ltb r n && (eqb (cell 0 pair_width labels.now r 0) a && eqb (cell 0 pair_width labels.now r 1) b)) }
{
    r < n && (labels[PAIR_WIDTH * r] == a && labels[PAIR_WIDTH * r + 1] == b)
}

// Puts the pair a, b in at row r of n.
fn open_labels(labels: &mut [u16], n: usize, r: usize, a: u16, b: u16)
    requires fact_1 { r ≤ n }
    requires fact_2 { pair_width * n + pair_width ≤ length labels.old }
    ensures { labels.new ≡ row_stored pair_width (lifted (pair_width * r) (pair_width * n) pair_width labels.old) r (a ∷ b ∷ []) }
{
    lift(labels, PAIR_WIDTH * r, PAIR_WIDTH * n, PAIR_WIDTH);
    store(labels, r, [a, b]);
}

// Puts a count of 1 in at row r of n.
fn open_count(counts: &mut [u32], n: usize, r: usize)
    requires fact_1 { r ≤ n }
    requires fact_2 { n + 1 ≤ length counts.old }
    ensures { counts.new ≡ set (lifted r n 1 counts.old) r 1 }
{
    lift(counts, r, n, 1);
    counts[r] = 1;
}

// Counts the pair a, b into the sorted table of n pairs, in strict order, which has room for `room`. Answers how many pairs there are; where that is more than the room, the table is not spoken of any more.
pub fn put_cell(
    labels: &mut [u16],
    counts: &mut [u32],
    room: usize,
    n: usize,
    a: u16,
    b: u16,
) -> usize
    requires fact_1 { n ≤ room }
    requires fact_2 { pair_width * room ≤ length labels.old }
    requires fact_3 { room ≤ length counts.old }
    requires fact_4 { total (entries_in labels.old counts.old n) < most_times }
    requires fact_5 { Ordered lesser (entries_in labels.old counts.old n) }
    ensures { Grown room (insert_by lesser added (once (a ∷ b ∷ [])) (entries_in labels.old counts.old n)) labels.new counts.new result }
{
    let r = place(labels, n, a, b);
    if stands(labels, n, r, a, b) {
        counts[r] += 1;
        return n;
    }
    if room <= n {
        return n + 1;
    }
    open_labels(labels, n, r, a, b);
    open_count(counts, n, r);
    n + 1
}
