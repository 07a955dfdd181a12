// The rows of what stays, moved down in their order.
ghost use Rattle.std.specs.Prelude.{◌≡◌, map, ◌+◌, ◌*◌, ◌≤◌, length};
ghost use Rattle.seq.specs.Seq.{count, select, row_stored};
ghost use Rattle.graph.specs.Flat.{the_point_at};
ghost use Rattle.overlay_cut.specs.Points.{points_of, point_row};
ghost use Rattle.overlay_cut.specs.PieceRows.{piece_width, pieces_in};
ghost use Rattle.thin.specs.Thinned.{separates_in, marked, moved_row, moved_piece, Ends, EdgesIn};

use crate::keeping::stays;
use limits::{PIECE_WIDTH, POINT_WIDTH};
use overlay_cut::source_in;
use overlay_graph::Cut;
use seq::store;

// Stores the point in row v as row c.
fn move_point(points: &[i64], v: usize, out: &mut [i64], c: usize)
    requires fact_1 { 4 * v + 4 ≤ length points.now }
    requires fact_2 { 4 * c + 4 ≤ length out.old }
    ensures { out.new ≡ row_stored 4 out.old c (point_row (the_point_at points.now v)) }
{
    let at = POINT_WIDTH * v;
    let x = points[at];
    let y = points[at + 1];
    let d = points[at + 2];
    store(out, c, [x, y, d, 0]);
}

// The points of the vertices that are marked, of n. Answers how many there are.
pub fn move_points(n: usize, points: &[i64], marks: &[u16], out: &mut [i64]) -> usize
    requires fact_1 { n ≤ length marks.now }
    requires fact_2 { 4 * n ≤ length points.now }
    requires fact_3 { 4 * n ≤ length out.old }
    ensures is { result ≡ count (marked marks.now) n }
    ensures rows { points_of out.new result ≡ map (the_point_at points.now) (select (marked marks.now) n) }
{
    let mut c = 0;
    for v in 0..n {
        if 0 < marks[v] {
            move_point(points, v, out, c);
            c += 1;
        }
    }
    c
}

// Stores the piece in row k as row c, between the new numbers of its ends.
fn move_piece(pieces: &[u16], k: usize, numbers: &[u16], out: &mut [u16], c: usize)
    requires fact_1 { Ends pieces.now (length numbers.now) k }
    requires fact_2 { piece_width * c + piece_width ≤ length out.old }
    ensures { out.new ≡ row_stored piece_width out.old c (moved_row pieces.now numbers.now k) }
{
    let at = PIECE_WIDTH * k;
    let lower = numbers[pieces[at] as usize];
    let upper = numbers[pieces[at + 1] as usize];
    let first = source_in(pieces, k, 0);
    let second = source_in(pieces, k, 1);
    let third = source_in(pieces, k, 2);
    store(out, c, [lower, upper, first, second, third]);
}

// The pieces of the edges that stay. Answers how many there are.
pub fn move_pieces(
    cut: Cut,
    face: &[u16],
    triples: &[u16],
    numbers: &[u16],
    out: &mut [u16],
) -> usize
    requires fact_1 { EdgesIn cut.pieces.now face.now triples.now (length numbers.now) cut.edges }
    requires fact_2 { piece_width * cut.edges ≤ length out.old }
    ensures is { result ≡ count (separates_in face.now triples.now) cut.entry.edges }
    ensures rows { pieces_in out.new result ≡ map (moved_piece cut.entry.pieces.now numbers.now) (select (separates_in face.now triples.now) cut.entry.edges) }
{
    let mut c = 0;
    for k in 0..cut.edges {
        if stays(face, triples, k) {
            move_piece(cut.pieces, k, numbers, out, c);
            c += 1;
        }
    }
    c
}
