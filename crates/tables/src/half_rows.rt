// The half-edge table: "A half-edge holds origin, twin, follower, predecessor, face".
ghost use Rattle.std.specs.Prelude.{◌≡◌, ◌*◌, ◌≤◌, length};
ghost use Rattle.seq.specs.Seq.{rows, padded, laid};
ghost use Rattle.paper.specs.Limits.{overlay_edges};
ghost use Rattle.paper.specs.Tables.{half_width};
ghost use Rattle.tables.specs.Rows.{half_of};

use graph::twin;
use limits::HALF_WIDTH;
use seq::{store, wipe_from};

// Stores a row for each half-edge.
fn lay(halves: &mut [u16], edges: u16, origins: &[u16], next: &[u16], prev: &[u16], face: &[u16])
    requires { (edges ≤ overlay_edges) × (half_width * (2 * edges) ≤ length halves.old) × (2 * edges ≤ length origins.now) × (2 * edges ≤ length next.now) × (2 * edges ≤ length prev.now) × (2 * edges ≤ length face.now) }
    ensures { halves.new ≡ laid (2 * edges) (half_of origins.now next.now prev.now face.now) halves.old }
{
    let m = 2 * edges as usize;
    for h in 0..m {
        let other = twin(h) as u16;
        store(halves, h, [origins[h], other, next[h], prev[h], face[h]]);
    }
}

// The half-edge table, zero past the count.
pub fn store_halves(
    halves: &mut [u16],
    edges: u16,
    origins: &[u16],
    next: &[u16],
    prev: &[u16],
    face: &[u16],
)
    requires { (edges ≤ overlay_edges) × (half_width * (2 * edges) ≤ length halves.old) × (2 * edges ≤ length origins.now) × (2 * edges ≤ length next.now) × (2 * edges ≤ length prev.now) × (2 * edges ≤ length face.now) }
    ensures { halves.new ≡ padded 0 (length halves.old) (rows (half_of origins.now next.now prev.now face.now) (2 * edges)) }
{
    lay(halves, edges, origins, next, prev, face);
    let m = 2 * edges as usize;
    wipe_from(halves, HALF_WIDTH * m, 0);
}
