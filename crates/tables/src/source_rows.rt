// The source table: "whether it came from the first map, the second or both, with the edge number in each", and of the third (02, Ask 13), as a number + 1 or 0 for each map.
ghost use Rattle.std.specs.Prelude.{◌≡◌, ◌*◌, ◌≤◌, length};
ghost use Rattle.seq.specs.Seq.{rows, padded, laid};
ghost use Rattle.paper.specs.Limits.{maps};
ghost use Rattle.tables.specs.Rows.{piece_cells, source_of};

use limits::{PIECE_SOURCES, PIECE_WIDTH, SOURCE_WIDTH};
use seq::{store, wipe_from};

// Where a piece's row has its source in the first map, in the second, and in the third.
const FIRST: usize = PIECE_SOURCES;

const SECOND: usize = PIECE_SOURCES + 1;

const THIRD: usize = PIECE_SOURCES + 2;

// Stores a row for each edge: of the pieces, rows of lower, upper, and for each map the source + 1 or 0.
fn lay(sources: &mut [u32], edges: u16, pieces: &[u16])
    requires { (maps * edges ≤ length sources.old) × (piece_cells * edges ≤ length pieces.now) }
    ensures { sources.new ≡ laid edges (source_of pieces.now) sources.old }
{
    let n = edges as usize;
    for k in 0..n {
        let at = PIECE_WIDTH * k;
        let first = pieces[at + FIRST] as u32;
        let second = pieces[at + SECOND] as u32;
        let third = pieces[at + THIRD] as u32;
        store(sources, k, [first, second, third]);
    }
}

// The source table, zero past the count.
pub fn store_sources(sources: &mut [u32], edges: u16, pieces: &[u16])
    requires { (maps * edges ≤ length sources.old) × (piece_cells * edges ≤ length pieces.now) }
    ensures { sources.new ≡ padded 0 (length sources.old) (rows (source_of pieces.now) edges) }
{
    lay(sources, edges, pieces);
    let n = edges as usize;
    wipe_from(sources, SOURCE_WIDTH * n, 0);
}
