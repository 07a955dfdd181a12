// The map of a file in flat tables, as the graph code reads them. A table may be longer than needed: the other cells stay as they were.
ghost use Rattle.std.specs.Prelude.{◌≡◌, ◌*◌, ◌≤◌, length};
ghost use Rattle.seq.specs.Seq.{filled, laid};
ghost use Rattle.paper.specs.Graph.{origin};
ghost use Rattle.paper.specs.Map.{map_of, vertex_count, edges_in, label};
ghost use Rattle.map_file.specs.Header.{header_of};
ghost use Rattle.map_file.specs.Rows.{point_row};

use crate::reader::{Header, read_body};

// The map behind this header, read front to back: of each vertex its point, a row of X, Y, D = 1 and a spare cell; of each half-edge the vertex that it starts from, and its label.
pub fn read_map(file: &[u8], h: Header, points: &mut [i64], origins: &mut [u16], labels: &mut [u16])
    requires fact_1 { h ≡ header_of file.now }
    requires fact_2 { (4 * vertex_count file.now ≤ length points.old) × (2 * edges_in file.now ≤ length origins.old) × (2 * edges_in file.now ≤ length labels.old) }
    ensures { (points.new ≡ laid (vertex_count file.now) (point_row (map_of file.now).graph) points.old) × (origins.new ≡ filled (2 * edges_in file.now) (origin (map_of file.now).graph) origins.old) × (labels.new ≡ filled (2 * edges_in file.now) (label (map_of file.now)) labels.old) }
{
    read_body(file, h.vertices, h.edges, points, origins, labels);
}
