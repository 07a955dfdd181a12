// Which of two points comes first. Most points of the queue differ in height and have small numbers, and then two products decide.
ghost use Rattle.std.specs.Prelude.{◌≡◌};
ghost use Rattle.paper.specs.Plane.{before};
ghost use Rattle.plane.specs.Bounds.{Near};
ghost use Rattle.plane.specs.Values.{pt_of};

use plane::{Point, before, middling};

// Whether q comes before p.
pub fn earlier(q: Point, p: Point) -> bool
    requires { Near (pt_of q) × Near (pt_of p) }
    ensures { result ≡ before (pt_of q) (pt_of p) }
{
    if middling(q.y, q.d) && middling(p.y, p.d) {
        let a = q.y * p.d;
        let b = p.y * q.d;
        if a < b {
            return true;
        }
        if b < a {
            return false;
        }
    }
    before(q, p)
}
