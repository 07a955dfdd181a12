// An overlay file, listed.
ghost use Rattle.paper.specs.Reader.{read};
ghost use Rattle.lists.specs.Listed.{ListedOf, full_tables};

use crate::answer::{Listed, put};
use limits::{FACE_CELLS, HALF_CELLS, LISTING, SOURCE_CELLS, VERTEX_CELLS};

// The listing of the overlay that arbitrary bytes hold as an overlay file, or the line of what they are refused for.
pub fn list(file: &[u8], out: &mut [u8; LISTING]) -> Listed
    ensures { ListedOf (read full_tables file.now) out.old out.new result }
{
    let mut vertices = [0i64; VERTEX_CELLS];
    let mut halves = [0u16; HALF_CELLS];
    let mut sources = [0u32; SOURCE_CELLS];
    let mut faces = [0u16; FACE_CELLS];
    let answer = ovfile_read::read(file, &mut vertices, &mut halves, &mut sources, &mut faces);
    let length = put(answer, &faces, out);
    Listed { length, answer }
}
