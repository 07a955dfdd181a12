// A small graph has room in small tables: less to clear.
ghost use Rattle.std.specs.Prelude.{true, ◌≡◌, ◌≤◌};
ghost use Rattle.graph.specs.Small.{small_vertices, small_edges};

use limits::{SMALL_EDGES, SMALL_VERTICES};

// Whether n vertices and e edges have room in small tables.
pub fn is_small(n: usize, e: usize) -> bool
    ensures { result ≡ true → (n ≤ small_vertices) × (e ≤ small_edges) }
{
    if e <= SMALL_EDGES {
        n <= SMALL_VERTICES
    } else {
        false
    }
}
