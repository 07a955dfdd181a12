// How two edges meet, asked by itself (02, Ask 2): of eight numbers, none of which is trusted.
#![tactic(auto)]

mod asked; // asked.rt: the corners, the refusals, and the answer for four corners

ghost use Rattle.std.specs.Prelude.{◌≡◌};
ghost use Rattle.paper.specs.Meeting.{meet};
ghost use Rattle.meet.specs.Answer.{answer_of};

use asked::{corner, meet_corners};
use map_file::Refusal;
use plane::Meeting;

// How the edge from a to b and the edge from c to d meet. "Asked by itself, it refuses with 5 for a coordinate beyond its range and then 7 for an edge of no
// length; place 0 for the first edge, 1 for the second".
pub fn meet(
    ax: i16,
    ay: i16,
    bx: i16,
    by: i16,
    cx: i16,
    cy: i16,
    dx: i16,
    dy: i16,
) -> Result<Meeting, Refusal>
    ensures { answer_of result ≡ meet ax ay bx by cx cy dx dy }
{
    meet_corners(
        corner(ax, ay),
        corner(bx, by),
        corner(cx, cy),
        corner(dx, dy),
    )
}
