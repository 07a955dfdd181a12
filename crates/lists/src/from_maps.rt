// Three map files laid over each other: the listing of their overlay, and its overlay file.
ghost use Rattle.std.specs.Prelude.{◌≡◌, length};
ghost use Rattle.paper.specs.Overlay.{overlay};
ghost use Rattle.lists.specs.Listed.{ListedOf, full_tables};
ghost use Rattle.ovfile_write.specs.Answers.{written_of};
ghost use Rattle.lists.specs.Filed.{filed};

use crate::answer::{Listed, put};
use crate::filed::file_of;
use limits::{FACE_CELLS, HALF_CELLS, LISTING, SOURCE_CELLS, VERTEX_CELLS};
use map_file::Refusal;

// The tables are arrays of the two functions below, and not of one that hands them up: they would be moved, and `listing` would take half as much stack again.

// The listing of the overlay of three map files of any bytes, or the line of what is refused.
pub fn list(zones: &[u8], blocks: &[u8], bed: &[u8], out: &mut [u8; LISTING]) -> Listed
    ensures { ListedOf (overlay full_tables zones.now blocks.now bed.now) out.old out.new result }
{
    let mut vertices = [0i64; VERTEX_CELLS];
    let mut halves = [0u16; HALF_CELLS];
    let mut sources = [0u32; SOURCE_CELLS];
    let mut faces = [0u16; FACE_CELLS];
    let answer = overlay::overlay(
        zones,
        blocks,
        bed,
        &mut vertices,
        &mut halves,
        &mut sources,
        &mut faces,
    );
    let length = put(answer, &faces, out);
    Listed { length, answer }
}

// The overlay file of the overlay of three map files of any bytes, into a buffer of any length: its length, or what is refused.
pub fn file(zones: &[u8], blocks: &[u8], bed: &[u8], buffer: &mut [u8]) -> Result<usize, Refusal>
    ensures { written_of result buffer.new ≡ filed (length buffer.old) (overlay full_tables zones.now blocks.now bed.now) }
{
    let mut vertices = [0i64; VERTEX_CELLS];
    let mut halves = [0u16; HALF_CELLS];
    let mut sources = [0u32; SOURCE_CELLS];
    let mut faces = [0u16; FACE_CELLS];
    let answer = overlay::overlay(
        zones,
        blocks,
        bed,
        &mut vertices,
        &mut halves,
        &mut sources,
        &mut faces,
    );
    file_of(answer, &vertices, &halves, &sources, &faces, buffer)
}
