// The overlay's vertices and edges without those that go.
ghost use Rattle.std.specs.Prelude.{◌*◌, ◌≤◌, length};
ghost use Rattle.overlay_cut.specs.PieceRows.{piece_width};
ghost use Rattle.overlay_graph.specs.Cut.{cut_by};
ghost use Rattle.overlay_graph.specs.Given.{the_cut};
ghost use Rattle.thin.specs.Thinned.{Thinnable, Thinned};

use crate::keeping::{mark_ends, number};
use crate::moving::{move_pieces, move_points};
use limits::VERTICES;
use overlay_graph::{Cut, CutCounts};

// The vertices and edges of an overlay thinned, by the face of each half-edge and the labels of each face, a row for each face and in it a cell for each map:
// an edge stays where a label differs between its two sides, a vertex where an edge does. Rows stay in their order, vertices are "numbered afresh", and sources
// stay with their pieces. Answers how many vertices and edges there are.
pub fn thin(
    cut: Cut,
    face: &[u16],
    triples: &[u16],
    newpoints: &mut [i64],
    newpieces: &mut [u16],
) -> CutCounts
    requires fact_1 { Thinnable (the_cut cut) face.now triples.now }
    requires fact_2 { (4 * cut.vertices ≤ length newpoints.old) × (piece_width * cut.edges ≤ length newpieces.old) }
    ensures { Thinned (the_cut cut.entry) face.now triples.now (cut_by result.vertices newpoints.new result.edges newpieces.new) }
{
    let mut marks = [0u16; VERTICES];
    let mut numbers = [0u16; VERTICES];
    mark_ends(cut, face, triples, &mut marks);
    number(cut.vertices, &marks, &mut numbers);
    let vertices = move_points(cut.vertices, cut.points, &marks, newpoints);
    let edges = move_pieces(cut, face, triples, &numbers, newpieces);
    CutCounts { vertices, edges }
}
