// Which edges stay, and which vertices: those that are an end of one.
ghost use Rattle.std.specs.Prelude.{◌≡◌, ◌+◌, ◌*◌, ◌≤◌, length, set};
ghost use Rattle.seq.specs.Seq.{count, filled};
ghost use Rattle.seq.specs.Filled.{Holds};
ghost use Rattle.paper.specs.Limits.{maps, overlay_vertices};
ghost use Rattle.paper.specs.Melt.{is_end};
ghost use Rattle.overlay_cut.specs.PieceRows.{piece_at};
ghost use Rattle.thin.specs.Thinned.{differ_in, separates_in, kept_in, flag, marked, Sides, Ends, EdgesIn};

use limits::{MAPS, PIECE_WIDTH};
use overlay_graph::Cut;

// Whether some label of the faces f and g differs: "Ask 12 compares triples" (02, Ask 13).
fn differ(triples: &[u16], f: usize, g: usize) -> bool
    requires fact_1 { maps * f + maps ≤ length triples.now }
    requires fact_2 { maps * g + maps ≤ length triples.now }
    ensures { result ≡ differ_in triples.now f g }
{
    (0..MAPS).any(|i| triples[MAPS * f + i] != triples[MAPS * g + i])
}

// Whether edge k stays: it has not "the same pair on both sides".
pub fn stays(face: &[u16], triples: &[u16], k: usize) -> bool
    requires { Sides face.now triples.now k }
    ensures { result ≡ separates_in face.now triples.now k }
{
    let left = face[2 * k] as usize;
    let right = face[2 * k + 1] as usize;
    differ(triples, left, right)
}

// Marks both ends of edge k.
fn mark(pieces: &[u16], k: usize, marks: &mut [u16])
    requires { Ends pieces.now (length marks.old) k }
    ensures { marks.new ≡ set (set marks.old (piece_at pieces.now k).lo 1) (piece_at pieces.now k).hi 1 }
{
    let at = PIECE_WIDTH * k;
    let lower = pieces[at] as usize;
    let upper = pieces[at + 1] as usize;
    marks[lower] = 1;
    marks[upper] = 1;
}

// Marks the ends of the edges that stay.
pub fn mark_ends(cut: Cut, face: &[u16], triples: &[u16], marks: &mut [u16])
    requires fact_1 { EdgesIn cut.pieces.now face.now triples.now cut.vertices cut.edges }
    requires fact_2 { Holds (λ v. 0) marks.old cut.vertices }
    ensures { Holds (λ v. flag (is_end (kept_in cut.entry.pieces.now face.now triples.now cut.entry.edges) v)) marks.new cut.entry.vertices }
{
    for k in 0..cut.edges {
        if stays(face, triples, k) {
            mark(cut.pieces, k, marks);
        }
    }
}

// "numbered afresh": at each of n vertices how many that are marked come before it.
pub fn number(n: usize, marks: &[u16], numbers: &mut [u16])
    requires fact_1 { n ≤ overlay_vertices }
    requires fact_2 { n ≤ length marks.now }
    requires fact_3 { n ≤ length numbers.old }
    ensures { numbers.new ≡ filled n (count (marked marks.now)) numbers.old }
{
    let mut c: usize = 0;
    for v in 0..n {
        numbers[v] = c as u16;
        if 0 < marks[v] {
            c += 1;
        }
    }
}
