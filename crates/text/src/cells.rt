// The face table: its cells, and the gaps in it.
ghost use Rattle.std.specs.Prelude.{◌≡◌, ◌+◌, ◌*◌, ◌<◌, get_or};
ghost use Rattle.paper.specs.Limits.{maps};
ghost use Rattle.paper.specs.Tables.{face_width};
ghost use Rattle.paper.specs.Listing.{is_gap};
ghost use Rattle.text.specs.Lines.{gaps_in};

use limits::FACE_WIDTH;

// The cell j of a face's row; 0 past the table's end.
pub fn cell(faces: &[u16], face: u16, j: usize) -> u16
    requires { j < face_width maps }
    ensures { result ≡ get_or faces.now (face_width maps * face + j) 0 }
{
    let at = FACE_WIDTH * face as usize + j;
    if at < faces.len() { faces[at] } else { 0 }
}

// Whether a face with these labels is a gap.
fn is_gap(zone: u16, block: u16) -> bool
    ensures { result ≡ is_gap zone block }
{
    zone == 0 && block != 0
}

// "A gap is a face other than 0 whose zone label is 0 and whose block label is not 0"
pub fn gaps(faces: &[u16], count: u16) -> u16
    ensures { result ≡ gaps_in faces.now count }
{
    let mut found = 0;
    for f in 1..count {
        found += u16::from(is_gap(cell(faces, f, 0), cell(faces, f, 1)));
    }
    found
}
