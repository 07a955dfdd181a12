// The whole listing, put at the start of a lent text, which holds the longest of them: a line has at most 64 bytes, and there are the counts, 1,334
// faces and the gaps. What is answered is its length.
ghost use Rattle.std.specs.Prelude.{◌+◌, ◌*◌, ◌≤◌, length};
ghost use Rattle.seq.specs.Seq.{rows};
ghost use Rattle.paper.specs.Limits.{overlay_faces};
ghost use Rattle.paper.specs.Listing.{refused_line};
ghost use Rattle.text.specs.Line.{Put};
ghost use Rattle.text.specs.Lines.{Line, face_text, listing_text};

use crate::cells::gaps;
use crate::lines::{counts_line, face_line, gaps_line, put_refused};
use limits::LISTING;

// "then comes a line for each face in order"
fn put_faces(out: &mut [u8], at: usize, count: u16, faces: &[u16]) -> usize
    requires { at + 64 * count ≤ length out.old }
    ensures { Put (rows (face_text faces.now) count) (64 * count) out.old at out.new result }
{
    let mut end = at;
    for f in 0..count {
        end = face_line(out, end, f, faces);
    }
    end
}

// The listing of an overlay with these counts and this face table.
pub fn listing(
    vertices: u16,
    edges: u16,
    count: u16,
    faces: &[u16],
    out: &mut [u8; LISTING],
) -> usize
    requires { count ≤ overlay_faces }
    ensures { Line 85504 (listing_text (record { vertices = vertices; edges = edges; faces = count }) faces.now) out.old out.new result }
{
    let at = counts_line(out, 0, vertices, edges, count);
    let at = put_faces(out, at, count, faces);
    gaps_line(out, at, gaps(faces, count))
}

// "On refusal the only line is `refused N map M place P`"
pub fn refused_listing(number: u16, map: u16, place: u16, out: &mut [u8; LISTING]) -> usize
    ensures { Line 85504 (refused_line (record { number = number; map = map; place = place; other = 0 })) out.old out.new result }
{
    put_refused(out, 0, number, map, place)
}
