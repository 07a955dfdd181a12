// A part of the status exchanged for another list.
ghost use Rattle.std.specs.Prelude.{◌≡◌, ◌++◌, ◌+◌, ◌-◌, ◌≤◌, length, take, drop};
ghost use Rattle.overlay_sweep.specs.Numbers.{numbers_in};
ghost use Rattle.overlay_sweep.specs.Splice.{Shifted};
ghost use Rattle.overlay_sweep.specs.Splicing.{Lowered};

use seq::lift;

// Moves the cells from `from` to `to` down by `by` cells, the first first.
fn lower(t: &mut [u16], from: usize, to: usize, by: usize)
    requires fact_1 { by ≤ from }
    requires fact_2 { from ≤ to }
    requires fact_3 { to ≤ length t.old }
    ensures { Lowered from to by t.old t.new }
{
    for i in from..to {
        t[i - by] = t[i];
    }
}

// Moves the cells b to n so that they start at c. Where they do already, as at most stops, nothing moves. Not `copy_within`: seq's `lift` says why.
fn shift(t: &mut [u16], n: usize, b: usize, c: usize)
    requires fact_1 { b ≤ n }
    requires fact_2 { n ≤ length t.old }
    requires fact_3 { c + (n - b) ≤ length t.old }
    ensures { Shifted n b c t.old t.new }
{
    if b < c {
        lift(t, b, n, c - b);
    } else if c < b {
        lower(t, b, n, b - c);
    }
}

// The cells a to b of n exchanged for the first m of another table. Answers how many there are then.
pub fn splice(t: &mut [u16], n: usize, a: usize, b: usize, fan: &[u16], m: usize) -> usize
    requires fact_1 { a ≤ b }
    requires fact_2 { b ≤ n }
    requires fact_3 { n ≤ length t.old }
    requires fact_4 { a + m + (n - b) ≤ length t.old }
    requires fact_5 { m ≤ length fan.now }
    ensures count { result ≡ a + m + (n - b) }
    ensures is { numbers_in t.new (a + m + (n - b)) ≡ take a (numbers_in t.old n) ++ (numbers_in fan.now m ++ drop b (numbers_in t.old n)) }
{
    shift(t, n, b, a + m);
    t[a..a + m].copy_from_slice(&fan[..m]);
    a + m + (n - b)
}
