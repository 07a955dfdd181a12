// The face table: "A face holds the pair of its least outer half-edge, that number (65,535 for face 0), and its count of hole walks"; "pairs become triples"
// (02, Ask 13).
ghost use Rattle.std.specs.Prelude.{◌≡◌, ◌*◌, ◌≤◌, length};
ghost use Rattle.seq.specs.Seq.{rows, padded, laid};
ghost use Rattle.paper.specs.Limits.{maps};
ghost use Rattle.paper.specs.Tables.{face_width};
ghost use Rattle.tables.specs.Rows.{face_by};

use limits::{FACE_WIDTH, MAPS};
use seq::{store, wipe_from};

// Stores a row for each face: of the labels, rows of one for each map, of its least outer half-edge, and of its count of hole walks.
fn lay(faces: &mut [u16], count: u16, labels: &[u16], outer: &[u16], holes: &[u16])
    requires { (face_width maps * count ≤ length faces.old) × (maps * count ≤ length labels.now) × (count ≤ length outer.now) × (count ≤ length holes.now) }
    ensures { faces.new ≡ laid count (face_by labels.now outer.now holes.now) faces.old }
{
    let n = count as usize;
    for f in 0..n {
        let at = MAPS * f;
        store(
            faces,
            f,
            [
                labels[at],
                labels[at + 1],
                labels[at + 2],
                outer[f],
                holes[f],
            ],
        );
    }
}

// The face table, zero past the count.
pub fn store_faces(faces: &mut [u16], count: u16, labels: &[u16], outer: &[u16], holes: &[u16])
    requires { (face_width maps * count ≤ length faces.old) × (maps * count ≤ length labels.now) × (count ≤ length outer.now) × (count ≤ length holes.now) }
    ensures { faces.new ≡ padded 0 (length faces.old) (rows (face_by labels.now outer.now holes.now) count) }
{
    lay(faces, count, labels, outer, holes);
    let n = count as usize;
    wipe_from(faces, FACE_WIDTH * n, 0);
}
