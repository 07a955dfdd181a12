// The first place of each number in a table: of the origins, "its least outgoing half-edge" of each vertex; of the followers, the predecessor.
ghost use Rattle.std.specs.Prelude.{◌≡◌, ◌≤◌, length};
ghost use Rattle.seq.specs.Seq.{filled};
ghost use Rattle.paper.specs.Limits.{absent};
ghost use Rattle.graph.specs.Flat.{Numbers};
ghost use Rattle.graph.specs.Places.{first_place};

// Stores one value in the first n cells: std's `fill`, in the words of specs/.
pub fn fill(out: &mut [u16], n: usize, value: u16)
    requires { n ≤ length out.old }
    ensures { out.new ≡ filled n (λ i. value) out.old }
{
    out[..n].fill(value);
}

// Where each number below n first stands in the first m cells of xs; `none` where it does not. From the last place down, so that the first is stored last. The overlay file's crates have it of a column
// of a table and of a field of a file, where a number may name no cell and is passed by: here each is below n, and nothing is tested.
pub fn first_places(xs: &[u16], m: usize, none: u16, out: &mut [u16], n: usize)
    requires fact_1 { Numbers xs.now m n }
    requires fact_2 { m ≤ absent }
    requires fact_3 { n ≤ length out.old }
    ensures { out.new ≡ filled n (first_place xs.now m none) out.old }
{
    fill(out, n, none);
    for i in (0..m).rev() {
        out[xs[i] as usize] = i as u16;
    }
}
