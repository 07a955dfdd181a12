// The corners that eight numbers name, the refusals, and the answer for four corners.
ghost use Rattle.std.specs.Prelude.{◌≡◌, ◌||◌};
ghost use Rattle.paper.specs.Plane.{vec, whole, same};
ghost use Rattle.paper.specs.Refusal.{first_of};
ghost use Rattle.paper.specs.Meeting.{beyond, meet_faults, meet_corners};
ghost use Rattle.plane.specs.Values.{vec_of};
ghost use Rattle.map_file.specs.Verdict.{verdict};
ghost use Rattle.meet.specs.Answer.{answer_of};

use limits::REACH;
use map_file::{Check, Refusal, given};
use plane::{Meeting, Vector, between, meeting};

// The corner x, y.
pub fn corner(x: i16, y: i16) -> Vector
    ensures { vec_of result ≡ vec x y }
{
    Vector {
        x: i64::from(x),
        y: i64::from(y),
    }
}

// 5 "a coordinate beyond its range"
fn beyond(a: Vector) -> bool
    ensures { result ≡ beyond (vec_of a) }
{
    REACH < a.x.unsigned_abs() || REACH < a.y.unsigned_abs()
}

// 5, of either end.
fn either_beyond(a: Vector, b: Vector) -> bool
    ensures { result ≡ (beyond (vec_of a) || beyond (vec_of b)) }
{
    beyond(a) || beyond(b)
}

// 7 "an edge of no length"
fn no_length(a: Vector, b: Vector) -> bool
    ensures { result ≡ same (whole (vec_of a)) (whole (vec_of b)) }
{
    a == b
}

// The first fault of the edge from a to b and the edge from c to d: 5 of both, then 7 of both.
fn faults(a: Vector, b: Vector, c: Vector, d: Vector) -> Check
    ensures { verdict result ≡ first_of (meet_faults (vec_of a) (vec_of b) (vec_of c) (vec_of d)) }
{
    given(5, 0, either_beyond(a, b))?;
    given(5, 1, either_beyond(c, d))?;
    given(7, 0, no_length(a, b))?;
    given(7, 1, no_length(c, d))
}

// How the edge from a to b and the edge from c to d meet, or the refusal.
pub fn meet_corners(a: Vector, b: Vector, c: Vector, d: Vector) -> Result<Meeting, Refusal>
    ensures { answer_of result ≡ meet_corners (vec_of a) (vec_of b) (vec_of c) (vec_of d) }
{
    faults(a, b, c, d)?;
    Ok(meeting(between(a, b), between(c, d)))
}
