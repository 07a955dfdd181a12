// How two edges meet, as one number, and its point in a lent table.
ghost use Rattle.std.specs.Prelude.{◌≡◌, pos, length};
ghost use Rattle.exact.specs.Lowest.{pt};
ghost use Rattle.seq.specs.Seq.{table};
ghost use Rattle.plane.specs.Values.{pt_of, meeting_of};
ghost use Rattle.meet.specs.Answer.{answer_of as met_answer};
ghost use Rattle.bonnetewe.specs.Met.{meeting_kind, told_meeting, point_in, told_point, point_cell};

use crate::answer::join;
use map_file::Refusal;
use plane::{Meeting, Point};

fn kind(m: Meeting) -> u16
    ensures { result ≡ meeting_kind (meeting_of m) }
{
    match m {
        Meeting::Apart => 0,
        Meeting::Touching(_) => 1,
        Meeting::Crossing(_) => 2,
        Meeting::Sharing => 3,
    }
}

pub fn of_met(answer: Result<Meeting, Refusal>) -> u64
    ensures { result ≡ told_meeting (met_answer answer) }
{
    match answer {
        Ok(m) => join(0, kind(m), 0, 0),
        Err(r) => join(r.number, r.map, r.place, r.other),
    }
}

// Three zeros.
fn nowhere() -> Point
    ensures { pt_of result ≡ pt (pos 0) (pos 0) (pos 0) }
{
    Point { x: 0, y: 0, d: 0 }
}

fn point_in(m: Meeting) -> Point
    ensures { pt_of result ≡ point_in (meeting_of m) }
{
    match m {
        Meeting::Apart => nowhere(),
        Meeting::Touching(p) => p,
        Meeting::Crossing(p) => p,
        Meeting::Sharing => nowhere(),
    }
}

// The point where there is one, three zeros where there is none.
pub fn point_of(answer: Result<Meeting, Refusal>) -> Point
    ensures { pt_of result ≡ told_point (met_answer answer) }
{
    match answer {
        Ok(m) => point_in(m),
        Err(_) => nowhere(),
    }
}

// Cell i of a lent table: X, Y, D, and zeros behind.
fn point_cell(p: Point, i: usize) -> i64
    ensures { result ≡ point_cell (pt_of p) i }
{
    if i == 0 {
        return p.x;
    }
    if i == 1 {
        return p.y;
    }
    if i == 2 {
        return p.d;
    }
    0
}

// As many of X, Y and D as the table has room for, and zeros behind.
pub fn lay_point(p: Point, point: &mut [i64])
    ensures { point.new ≡ table (point_cell (pt_of p)) (length point.old) }
{
    let n = point.len();
    for i in 0..n {
        point[i] = point_cell(p, i);
    }
}
