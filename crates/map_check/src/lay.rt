// A map file checked and its map laid in tables, read once, front to back. Rules 1 to 4 are found on its header and its length: what passes them has at most 200 vertices and 300 edges, so
// that the map can be decoded into tables of that many, or of as many as the header counts. All other rules are found on these tables.
ghost use Rattle.std.specs.Prelude.{◌≡◌, ◌*◌, ◌≤◌, length};
ghost use Rattle.std.proofs.Math.Option.{none};
ghost use Rattle.seq.specs.Seq.{laid};
ghost use Rattle.paper.specs.Refusal.{first_of};
ghost use Rattle.paper.specs.Map.{map_of, vertex_count, edges_in, form_faults, fault, check};
ghost use Rattle.map_file.specs.Header.{header_of};
ghost use Rattle.map_file.specs.Rows.{carrier_row};
ghost use Rattle.map_file.specs.Verdict.{verdict};
ghost use Rattle.map_check.specs.Answer.{answer_of};
ghost use Rattle.map_check.specs.Held.{MapRoom, stored, MapRead, MapLaid};

use super::answer::{Checked, Counts};
use super::parts::{lay_carriers, part_fault};
use super::rules::net_fault;
use graph::FlatGraph;
use map_file::{Check, Header, form_fault, read_header, read_map};

// Rules 5 to 10 of a file with this header that passes rules 1 to 4 and whose map is read. The carriers are laid where rules 5 to 7 find nothing.
fn read_fault(
    file: &[u8],
    h: Header,
    points: &[i64],
    origins: &[u16],
    carriers: &mut [i16],
    labels: &[u16],
) -> Check
    requires fact_1 { h ≡ header_of file.now }
    requires fact_2 { first_of (form_faults file.now) ≡ none }
    requires fact_3 { MapRead file.now points.now origins.now labels.now }
    requires fact_4 { 4 * edges_in file.now ≤ length carriers.old }
    ensures { (verdict result ≡ fault file.now) × (fault file.now ≡ none → carriers.new ≡ laid (edges_in file.now) (carrier_row (map_of file.now).graph) carriers.old) }
{
    let n = h.vertices as usize;
    let e = h.edges as usize;
    part_fault(points, origins, n, e)?;
    lay_carriers(points, origins, n, e, carriers);
    let g = FlatGraph {
        points,
        origins,
        carriers,
        vertices: n,
        edges: e,
    };
    net_fault(g, labels)
}

// The check of a file of any bytes, and where it passes its map in the tables, over what stood there.
pub fn lay_map(
    file: &[u8],
    corners: &mut [i64],
    origins: &mut [u16],
    carriers: &mut [i16],
    labels: &mut [u16],
) -> Checked
    requires { MapRoom (stored vertex_count file.now) (stored edges_in file.now) corners.old origins.old carriers.old labels.old }
    ensures { (answer_of result ≡ check file.now) × (fault file.now ≡ none → MapLaid file.now corners.old origins.old carriers.old labels.old corners.new origins.new carriers.new labels.new) }
{
    let h = read_header(file);
    form_fault(file, h)?;
    read_map(file, h, corners, origins, labels);
    read_fault(file, h, corners, origins, carriers, labels)?;
    Ok(Counts {
        vertices: h.vertices,
        edges: h.edges,
    })
}
