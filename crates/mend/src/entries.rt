// The list: "Each list entry has the step and the original number; entries stand by step, then number".
ghost use Rattle.std.specs.Prelude.{◌≡◌, ◌+◌, ◌*◌, ◌≤◌, length};
ghost use Rattle.std.proofs.lemmas.List.Edits.{sets};
ghost use Rattle.seq.specs.Seq.{count, rows, padded};
ghost use Rattle.mend.specs.Steps.{step_is};
ghost use Rattle.mend.specs.Stored.{entry_in, the_list_count, list_in};

use crate::steps::is_step;
use seq::wipe_from;

// The entries of one step, of n vertices or edges, from a place on; and the place behind them.
fn put_step(steps: &[u16], step: u16, n: u16, list: &mut [u16], start: usize) -> usize
    requires { (n ≤ length steps.now) × (start + 2 * count (step_is steps.now step) n ≤ length list.old) }
    ensures list { list.new ≡ sets list.old start (rows (entry_in steps.now step) n) }
    ensures at { result ≡ start + 2 * count (step_is steps.now step) n }
{
    let mut at = start;
    for i in 0..n {
        if is_step(steps, step, i) {
            list[at] = step;
            list[at + 1] = i;
            at += 2;
        }
    }
    at
}

// The whole list, and zeros past it: by the steps of n vertices and e edges.
pub fn put_list(vertices: &[u16], edges: &[u16], n: u16, e: u16, list: &mut [u16])
    requires { (n ≤ length vertices.now) × (e ≤ length edges.now) × (2 * the_list_count vertices.now edges.now n e ≤ length list.old) }
    ensures { list.new ≡ padded 0 (length list.old) (list_in vertices.now edges.now n e) }
{
    let a = put_step(vertices, 1, n, list, 0);
    let b = put_step(edges, 2, e, list, a);
    let c = put_step(edges, 3, e, list, b);
    let d = put_step(vertices, 4, n, list, c);
    wipe_from(list, d, 0);
}
