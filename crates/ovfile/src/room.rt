// The numbers of 01 as counts, and a count that is over them or over its table.
ghost use Rattle.std.specs.Prelude.{◌≡◌};
ghost use Rattle.paper.specs.Ovfile.{over};
ghost use Rattle.paper.specs.Reader.{numbers};
ghost use Rattle.tables.specs.Values.{counts_of};

use limits::{OVERLAY_EDGES, OVERLAY_FACES, OVERLAY_VERTICES};
use tables::Counts;

// The numbers of 01.
pub fn numbers() -> Counts
    ensures { counts_of result ≡ numbers }
{
    Counts {
        vertices: OVERLAY_VERTICES,
        edges: OVERLAY_EDGES,
        faces: OVERLAY_FACES,
    }
}

// 3 "a count over its number or its table"
pub fn over(room: Counts, c: Counts) -> bool
    ensures { result ≡ over (counts_of room) (counts_of c) }
{
    room.vertices < c.vertices || room.edges < c.edges || room.faces < c.faces
}
