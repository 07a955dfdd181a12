// Rules 8 and 9: edges that share more than ends, and vertices without an edge, each by its least place.
ghost use Rattle.std.specs.Prelude.{◌≡◌, ◌≤◌, ◌<◌, length};
ghost use Rattle.std.specs.Int.Signed.{lt_z};
ghost use Rattle.seq.specs.Seq.{least};
ghost use Rattle.paper.specs.Limits.{absent, map_vertices, map_edges};
ghost use Rattle.paper.specs.Plane.{head, clash};
ghost use Rattle.plane.specs.Values.{seg_of};
ghost use Rattle.plane.specs.Bounds.{Edge};
ghost use Rattle.graph.specs.Flat.{carrier_at, Carriers, Numbers};
ghost use Rattle.graph.specs.Upright.{Upright};
ghost use Rattle.map_check.specs.Net.{clashing_at, starts_at, lonely_at};
ghost use Rattle.map_check.specs.Later.{later_at};

use super::pass::all_clear;
use graph::{carrier_at, first_places};
use limits::{MAP_VERTICES, SMALL_VERTICES};
use plane::{Seg, boxes_apart, clash_by};

// Whether the upper end of s is lower than the lower end of t: as edges go up, s then lies wholly below t.
pub fn lies_under(s: Seg, t: Seg) -> bool
    requires { Edge (seg_of s) × Edge (seg_of t) }
    ensures { result ≡ lt_z (head (seg_of s)).y (seg_of t).foot.y }
{
    s.y + s.v < t.y
}

// Whether edges k and j share a point that is not an end of both, by how they meet; edges go up. Of most pairs one lies wholly below the other, which one
// comparison says; and nothing more is reckoned of two whose boxes are apart.
fn clashes(carriers: &[i16], e: usize, k: usize, j: usize) -> bool
    requires { Carriers carriers.now e × (k < e) × (j < e) × Upright carriers.now e }
    ensures { result ≡ clash (carrier_at carriers.now k) (carrier_at carriers.now j) }
{
    let s = carrier_at(carriers, k);
    let t = carrier_at(carriers, j);
    // One test after the other: joined by ||, the proof does not close, as it asks which of them held.
    if lies_under(s, t) {
        return false;
    }
    if lies_under(t, s) {
        return false;
    }
    if boxes_apart(s, t) {
        return false;
    }
    clash_by(s, t)
}

// The least edge after k that edge k clashes with, or e.
pub fn first_clash(carriers: &[i16], e: usize, k: usize) -> usize
    requires { Carriers carriers.now e × (k < e) × Upright carriers.now e }
    ensures { result ≡ least (later_at carriers.now k) e }
{
    for j in k + 1..e {
        if clashes(carriers, e, k, j) {
            return j;
        }
    }
    e
}

// The least edge that clashes with a later one, or e: the least that clashes with another.
fn search_clashing(carriers: &[i16], e: usize) -> usize
    requires { Carriers carriers.now e × Upright carriers.now e }
    ensures { result ≡ least (clashing_at carriers.now e) e }
{
    for k in 0..e {
        if first_clash(carriers, e, k) < e {
            return k;
        }
    }
    e
}

// 8 "an edge shares with another any point that is not an end of both": the least such edge, or e. It is searched only where the pass from below does not find that there is none.
pub fn first_clashing(carriers: &[i16], e: usize) -> usize
    requires { Carriers carriers.now e × Upright carriers.now e × (e ≤ map_edges) }
    ensures { result ≡ least (clashing_at carriers.now e) e }
{
    if all_clear(carriers, e) {
        e
    } else {
        search_clashing(carriers, e)
    }
}

// The least of m cells that holds v, or m.
fn first_holding(cells: &[u16], m: usize, v: usize) -> usize
    requires { m ≤ length cells.now }
    ensures { result ≡ least (starts_at cells.now v) m }
{
    (0..m).position(|i| cells[i] as usize == v).unwrap_or(m)
}

// 9 "a vertex has no edge": the least such vertex of n, or n, with a table lent. It is the least whose first outgoing half-edge, of m, is m: there is none.
fn first_lonely_in(origins: &[u16], m: usize, n: usize, firsts: &mut [u16]) -> usize
    requires fact_1 { Numbers origins.now m n }
    requires fact_2 { m ≤ absent }
    requires fact_3 { n ≤ length firsts.old }
    ensures { result ≡ least (lonely_at origins.now m) n }
{
    first_places(origins, m, m as u16, firsts, n);
    first_holding(firsts, n, m)
}

// The same, with a table of its own. Few vertices take a small one: less to clear.
pub fn first_lonely(origins: &[u16], m: usize, n: usize) -> usize
    requires { Numbers origins.now m n × (m ≤ absent) × (n ≤ map_vertices) }
    ensures { result ≡ least (lonely_at origins.now m) n }
{
    if n <= SMALL_VERTICES {
        let mut firsts = [0u16; SMALL_VERTICES];
        first_lonely_in(origins, m, n, &mut firsts)
    } else {
        let mut firsts = [0u16; MAP_VERTICES as usize];
        first_lonely_in(origins, m, n, &mut firsts)
    }
}
