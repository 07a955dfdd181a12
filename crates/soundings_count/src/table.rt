// A table of pairs that anyone may have handed in: whether its rows stand in strict order, and what its counts add up to.
ghost use Rattle.std.specs.Prelude.{◌≡◌, ◌+◌, ◌*◌, ◌≤◌, length};
ghost use Rattle.seq.specs.Seq.{the_some_below};
ghost use Rattle.paper.specs.Limits.{overlay_faces};
ghost use Rattle.soundings_count.specs.Entries.{pair_width};
ghost use Rattle.soundings_count.specs.Handed.{falls_at, sum_of};

use crate::count::less;
use limits::PAIR_WIDTH;

// Whether the pair in row i does not come after the one before it.
fn falls_at(labels: &[u16], i: usize) -> bool
    requires { pair_width * i + pair_width ≤ length labels.now }
    ensures { result ≡ falls_at labels.now i }
{
    let at = PAIR_WIDTH * i;
    i != 0 && !less(labels, i - 1, labels[at], labels[at + 1])
}

// Whether one of the first n rows does not.
pub fn falls(labels: &[u16], n: usize) -> bool
    requires { pair_width * n ≤ length labels.now }
    ensures { result ≡ the_some_below (falls_at labels.now) n }
{
    (0..n).any(|i| falls_at(labels, i))
}

// The sum of the first n counts.
pub fn sum(counts: &[u32], n: usize) -> u64
    requires fact_1 { n ≤ length counts.now }
    requires fact_2 { n ≤ overlay_faces }
    ensures { result ≡ sum_of counts.now n }
{
    let mut total = 0u64;
    for &c in &counts[..n] {
        total += u64::from(c);
    }
    total
}
