// Tables of any type of cell: wiped from a cell on, cells moved up, and rows stored in them. Row r of a table of rows of W cells is the cells from W * r on.
ghost use Rattle.std.specs.Prelude.{◌≡◌, ◌+◌, ◌*◌, ◌≤◌, length};
ghost use Rattle.seq.specs.Seq.{row_stored, wiped};
ghost use Rattle.seq.specs.Loops.Lifting.{lifted};

// Sets every cell from cell n on to `zero`.
#[inline]
pub fn wipe_from<T: Copy>(t: &mut [T], n: usize, zero: T)
    requires { n ≤ length t.old }
    ensures { t.new ≡ wiped zero n t.old }
{
    // Not `fill`: it asks that a clone of `zero` does not fail, which a bound `Copy` does not say.
    for cell in &mut t[n..] {
        *cell = zero;
    }
}

// Moves the cells from `from` to `to` up by `by` cells, the last first.
#[inline]
pub fn lift<T: Copy>(t: &mut [T], from: usize, to: usize, by: usize)
    requires fact_1 { from ≤ to }
    requires fact_2 { to + by ≤ length t.old }
    ensures { t.new ≡ lifted from to by t.old }
{
    // Not `copy_within`: it calls memmove, which an archive for C would then ask for, and mostly few cells move.
    for i in (from..to).rev() {
        t[i + by] = t[i];
    }
}

// Stores a row.
#[inline]
pub fn store<T: Copy, const W: usize>(t: &mut [T], r: usize, row: [T; W])
    requires { W * r + W ≤ length t.old }
    ensures { t.new ≡ row_stored W t.old r row }
{
    let at = W * r;
    t[at..at + W].copy_from_slice(&row);
}
