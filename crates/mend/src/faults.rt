// Refusals of a map that is read into tables: "1 to 5 as before, 7 only for an end that names no vertex".
ghost use Rattle.std.specs.Prelude.{◌≡◌, ◌+◌, ◌*◌, ◌≤◌, length};
ghost use Rattle.seq.specs.Seq.{least};
ghost use Rattle.paper.specs.Limits.{map_vertices, map_edges};
ghost use Rattle.paper.specs.Refusal.{first_of};
ghost use Rattle.map_file.specs.Verdict.{verdict};
ghost use Rattle.mend.specs.Steps.{no_vertex_at, table_faults};

use map_check::first_too_far;
use map_file::{Check, given};

// 7: an end of edge k names none of n vertices.
fn no_vertex(origins: &[u16], n: usize, k: usize) -> bool
    requires { 2 * k + 2 ≤ length origins.now }
    ensures { result ≡ no_vertex_at origins.now n k }
{
    let a = origins[2 * k] as usize;
    let b = origins[2 * k + 1] as usize;
    n <= a || n <= b
}

// The least such of e edges, or e.
fn first_no_vertex(origins: &[u16], n: usize, e: usize) -> usize
    requires { 2 * e ≤ length origins.now }
    ensures { result ≡ least (no_vertex_at origins.now n) e }
{
    (0..e).position(|k| no_vertex(origins, n, k)).unwrap_or(e)
}

// 5 and 7 of a map of n vertices and e edges.
pub fn table_fault(points: &[i64], origins: &[u16], n: usize, e: usize) -> Check
    requires fact_1 { 4 * n ≤ length points.now }
    requires fact_2 { 2 * e ≤ length origins.now }
    requires fact_3 { n ≤ map_vertices }
    requires fact_4 { e ≤ map_edges }
    ensures { verdict result ≡ first_of (table_faults points.now origins.now n e) }
{
    let far = first_too_far(points, n);
    let ends = first_no_vertex(origins, n, e);
    given(5, far as u16, far < n)?;
    given(7, ends as u16, ends < e)
}
