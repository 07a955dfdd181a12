// Refusal 8 in a sentence, for people: which two edges, how they meet, and where.
use limits::MAP_EDGE_SIZE;
use map_file::{Refusal, u16_at, vertex_count, vertex_place};
use plane::{Meeting, Point};
use std::fmt;
use std::fmt::Display;

// Two edges of a map file, and how they meet.
#[derive(Clone, Copy)]
pub struct Clash {
    edge: u16,
    other: u16,
    how: Result<Meeting, Refusal>,
}

impl Clash {
    // Of a map file that is refused with 8: its place and the other edge. Such a file has passed rules 5 to 7, so that `meet` does not refuse its edges.
    pub fn new(file: &[u8], r: Refusal) -> Self {
        let [ax, ay, bx, by] = ends(file, r.place);
        let [cx, cy, dx, dy] = ends(file, r.other);
        Clash {
            edge: r.place,
            other: r.other,
            how: meet::meet(ax, ay, bx, by, cx, cy, dx, dy),
        }
    }
}

// The coordinates of both ends of edge k of a map file.
fn ends(file: &[u8], k: u16) -> [i16; 4] {
    let edge = vertex_place(vertex_count(file)) + MAP_EDGE_SIZE * k as usize;
    let a = vertex_place(u16_at(file, edge));
    let b = vertex_place(u16_at(file, edge + 2));
    [a, a + 2, b, b + 2].map(|at| u16_at(file, at).cast_signed())
}

// "edge 17 crosses edge 23 at 7/3 2". Two edges that clash are not apart.
impl Display for Clash {
    fn fmt<W: fmt::Write>(&self, f: &mut fmt::Formatter<W>) -> fmt::Result {
        let Clash { edge, other, how } = self;
        match how {
            Ok(Meeting::Touching(p)) => {
                write!(f, "edge {edge} touches edge {other} at {}", Fractions(*p))
            }
            Ok(Meeting::Crossing(p)) => {
                write!(f, "edge {edge} crosses edge {other} at {}", Fractions(*p))
            }
            Ok(Meeting::Sharing) => { write!(f, "edge {edge} shares a stretch with edge {other}") }
            Ok(Meeting::Apart) => write!(f, "edge {edge} is apart from edge {other}"),
            Err(_) => write!(f, "edge {edge} clashes with edge {other}"),
        }
    }
}

// A point, each coordinate in its own lowest terms: `7/3 2`.
#[derive(Clone, Copy)]
struct Fractions(Point);

impl Display for Fractions {
    fn fmt<W: fmt::Write>(&self, f: &mut fmt::Formatter<W>) -> fmt::Result {
        let Point { x, y, d } = self.0;
        write!(f, "{} {}", Fraction { x, d }, Fraction { x: y, d })
    }
}

#[derive(Clone, Copy)]
struct Fraction {
    x: i64,
    d: i64,
}

impl Display for Fraction {
    fn fmt<W: fmt::Write>(&self, f: &mut fmt::Formatter<W>) -> fmt::Result {
        if self.d <= 0 {
            return Ok(());
        }
        match exact::lowest(self.x, 0, self.d) {
            Point { x, d: 1, .. } => write!(f, "{x}"),
            Point { x, d, .. } => write!(f, "{x}/{d}"),
        }
    }
}
