// What is refused of maps that pass: counts over the room.
ghost use Rattle.std.specs.Prelude.{◌≡◌, [], ◌∷◌, ltb};
ghost use Rattle.paper.specs.Refusal.{given, first_of};
ghost use Rattle.map_file.specs.Verdict.{verdict};

use map_file::{Check, given};
use tables::Counts;

// 11 "the defined overlay has more vertices (place 1), edges (2) .. than room, first in that order"
pub fn over_room(room: Counts, vertices: usize, edges: usize) -> Check
    ensures { verdict result ≡ first_of (given 11 1 (ltb room.vertices vertices) ∷ given 11 2 (ltb room.edges edges) ∷ []) }
{
    given(11, 1, (room.vertices as usize) < vertices)?;
    given(11, 2, (room.edges as usize) < edges)
}
