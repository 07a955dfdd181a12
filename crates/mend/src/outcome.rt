// The operation: judged first, with nothing stored; then both are stored, or both are wiped.
ghost use Rattle.std.specs.Prelude.{◌≡◌, [], ◌∷◌, ◌*◌, ◌/◌, ◌≤◌, ltb, length};
ghost use Rattle.std.proofs.Math.Option.{none};
ghost use Rattle.paper.specs.Map.{vertex_count, edges_in, form_faults};
ghost use Rattle.paper.specs.Mend.{mend, entry_width};
ghost use Rattle.paper.specs.Refusal.{given, first_of};
ghost use Rattle.map_file.specs.Header.{header_of};
ghost use Rattle.map_file.specs.Verdict.{refusal_of, verdict};
ghost use Rattle.map_check.specs.Held.{MapRead};
ghost use Rattle.mend.specs.Steps.{file_faults};
ghost use Rattle.mend.specs.Ready.{Ready};
ghost use Rattle.mend.specs.Answers.{mending_of, all_zero};

use crate::answer::Mending;
use crate::bytes::put_file;
use crate::entries::put_list;
use crate::faults::table_fault;
use crate::laid::Tables;
use crate::merge::{merge, move_ends};
use crate::numbers::{count_kept, number};
use crate::steps::{edge_steps, vertex_steps};
use limits::{
    MAP_EDGES, MAP_HALVES, MAP_POINT_CELLS, MAP_VERTICES, SMALL_EDGES, SMALL_HALVES,
    SMALL_POINT_CELLS, SMALL_VERTICES,
};
use map_file::{Check, Header, Refusal, form_fault, given, map_length, read_header, read_map};

// "with file and list left all zero"
fn refuse(r: Refusal, out: &mut [u8], list: &mut [u16]) -> Result<Mending, Refusal>
    ensures { mending_of result out.new list.new ≡ all_zero (length out.old) (length list.old) (refusal_of r) }
{
    out.fill(0);
    list.fill(0);
    Err(r)
}

// "11 with place 4 for a lent file too short, then place 5 for a list too short"
fn judge(n: usize, l: usize, long: usize, many: u16) -> Check
    ensures { verdict result ≡ first_of (given 11 4 (ltb n long) ∷ given 11 5 (ltb (l / entry_width) many) ∷ []) }
{
    given(11, 4, n < long)?;
    given(11, 5, l / 2 < many as usize)
}

// By the tables of what a file that can be mended becomes.
fn finish<'a>(
    file: &[u8],
    t: Tables<'a>,
    out: &mut [u8],
    list: &mut [u16],
) -> Result<Mending, Refusal>
    requires { (t.n ≡ vertex_count file.now) × (t.e ≡ edges_in file.now) × Ready file.now t.points.now t.labels.now t.ends.now t.numbers.now t.corners.now t.pieces.now t.vertices t.edges }
    ensures { mending_of result out.new list.new ≡ mend (length out.old) (length list.old) file.now }
{
    let bytes = map_length(t.vertices, t.edges);
    let length = bytes as u16;
    let entries = (t.n - t.vertices) + (t.e - t.edges);
    match judge(out.len(), list.len(), bytes, entries) {
        Err(r) => refuse(r, out, list),
        Ok(()) => {
            put_file(t, out);
            put_list(t.corners, t.pieces, t.n, t.e, list);
            Ok(Mending { length, entries })
        }
    }
}

// A file that can be mended, with its map in tables: the tables of what it becomes.
fn mend_map(
    file: &[u8],
    h: Header,
    points: &[i64],
    origins: &[u16],
    labels: &[u16],
    out: &mut [u8],
    list: &mut [u16],
) -> Result<Mending, Refusal>
    requires fact_1 { h ≡ header_of file.now }
    requires fact_2 { first_of (file_faults file.now) ≡ none }
    requires fact_3 { MapRead file.now points.now origins.now labels.now }
    ensures { mending_of result out.new list.new ≡ mend (length out.old) (length list.old) file.now }
{
    let n = h.vertices;
    let e = h.edges;
    let mut into = [0u16; MAP_VERTICES as usize];
    merge(points, n, &mut into);
    let mut ends = [0u16; MAP_HALVES];
    move_ends(&into, origins, e, &mut ends);
    let mut pieces = [0u16; MAP_EDGES as usize];
    edge_steps(&ends, e, &mut pieces);
    let mut corners = [0u16; MAP_VERTICES as usize];
    vertex_steps(&into, &ends, &pieces, n, e, &mut corners);
    let mut numbers = [0u16; MAP_VERTICES as usize];
    let vertices = number(&corners, n, &mut numbers);
    let edges = count_kept(&pieces, e);
    let t = Tables {
        points,
        labels,
        ends: &ends,
        numbers: &numbers,
        corners: &corners,
        pieces: &pieces,
        n,
        e,
        vertices,
        edges,
    };
    finish(file, t, out, list)
}

// A file that passes rules 1 to 4: its map is read once, front to back, into lent tables.
// The buffer and the list stay parameters, as C lends them to `bonnetewe_mend`; the three tables are arrays of `mend_map`.
fn mend_in(
    file: &[u8],
    h: Header,
    points: &mut [i64],
    origins: &mut [u16],
    labels: &mut [u16],
    out: &mut [u8],
    list: &mut [u16],
) -> Result<Mending, Refusal>
    requires fact_1 { h ≡ header_of file.now }
    requires fact_2 { first_of (form_faults file.now) ≡ none }
    requires fact_3 { (4 * vertex_count file.now ≤ length points.old) × (2 * edges_in file.now ≤ length origins.old) × (2 * edges_in file.now ≤ length labels.old) }
    ensures { mending_of result out.new list.new ≡ mend (length out.old) (length list.old) file.now }
{
    read_map(file, h, points, origins, labels);
    match table_fault(points, origins, h.vertices as usize, h.edges as usize) {
        Err(r) => refuse(r, out, list),
        Ok(()) => mend_map(file, h, points, origins, labels, out, list),
    }
}

// The same, with tables of its own. A small map takes small ones: less to clear.
fn mend_read(file: &[u8], h: Header, out: &mut [u8], list: &mut [u16]) -> Result<Mending, Refusal>
    requires fact_1 { h ≡ header_of file.now }
    requires fact_2 { first_of (form_faults file.now) ≡ none }
    ensures { mending_of result out.new list.new ≡ mend (length out.old) (length list.old) file.now }
{
    if h.vertices as usize <= SMALL_VERTICES && h.edges as usize <= SMALL_EDGES {
        let mut points = [0i64; SMALL_POINT_CELLS];
        let mut origins = [0u16; SMALL_HALVES];
        let mut labels = [0u16; SMALL_HALVES];
        mend_in(file, h, &mut points, &mut origins, &mut labels, out, list)
    } else {
        let mut points = [0i64; MAP_POINT_CELLS];
        let mut origins = [0u16; MAP_HALVES];
        let mut labels = [0u16; MAP_HALVES];
        mend_in(file, h, &mut points, &mut origins, &mut labels, out, list)
    }
}

// Mends a map file of any bytes into a lent file and a lent list, which has two numbers an entry: the step and the original number.
pub fn mend(file: &[u8], out: &mut [u8], list: &mut [u16]) -> Result<Mending, Refusal>
    ensures { mending_of result out.new list.new ≡ mend (length out.old) (length list.old) file.now }
{
    let h = read_header(file);
    match form_fault(file, h) {
        Err(r) => refuse(r, out, list),
        Ok(()) => mend_read(file, h, out, list),
    }
}
