// The three counts, and the room for them: "Room is the smaller of the lent table and the number above; a half-edge table counts as room for half as many
// edges, rounded down, and where several lent tables hold one kind the least room counts".
ghost use Rattle.std.specs.Prelude.{◌≡◌, min};
ghost use Rattle.paper.specs.Limits.{maps};
ghost use Rattle.paper.specs.Lent.{room_in, edge_room};
ghost use Rattle.tables.specs.Values.{counts_of, lengths_by};

use limits::{
    FACE_WIDTH, HALF_WIDTH, OVERLAY_EDGES, OVERLAY_FACES, OVERLAY_VERTICES, SOURCE_WIDTH,
    VERTEX_WIDTH,
};

#[derive(Clone, Copy, PartialEq, Eq, Debug)]
pub struct Counts {
    pub vertices: u16,
    pub edges: u16,
    pub faces: u16,
}

// The smaller of a number of 01 and a table's room.
fn smaller(number: u16, room: usize) -> u16
    ensures { result ≡ min number room }
{
    room.min(number as usize) as u16
}

// The edges for which both tables have whole rows.
pub fn edge_room(halves: usize, sources: usize) -> usize
    ensures { result ≡ edge_room maps (lengths_by 0 halves sources 0) }
{
    (halves / HALF_WIDTH / 2).min(sources / SOURCE_WIDTH)
}

// The room in tables of these lengths.
pub fn room_in(vertices: usize, halves: usize, sources: usize, faces: usize) -> Counts
    ensures { counts_of result ≡ room_in maps (lengths_by vertices halves sources faces) }
{
    Counts {
        vertices: smaller(OVERLAY_VERTICES, vertices / VERTEX_WIDTH),
        edges: smaller(OVERLAY_EDGES, edge_room(halves, sources)),
        faces: smaller(OVERLAY_FACES, faces / FACE_WIDTH),
    }
}
