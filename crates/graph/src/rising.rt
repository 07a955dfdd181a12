// Points in their order: the vertices of an overlay stand so. Then which of two comes first is told by their numbers, and no product is reckoned.
ghost use Rattle.std.specs.Prelude.{false, ◌≡◌, ◌<◌};
ghost use Rattle.paper.specs.Plane.{before};
ghost use Rattle.graph.specs.Flat.{origin_at, start_at, Points, Starts};
ghost use Rattle.graph.specs.Rising.{Rises, RisesIf};

use super::heading::{point_at, start};
use plane::before;

// Whether each of n points comes before the next.
pub fn rise(points: &[i64], n: usize) -> bool
    requires { Points points.now n }
    ensures rises { RisesIf result points.now n }
    ensures falls { result ≡ false → Rises points.now n → ⊥ }
{
    for v in 1..n {
        if !before(point_at(points, v - 1), point_at(points, v)) {
            return false;
        }
    }
    true
}

// Whether half-edge h starts at a vertex that comes before that of k: by their numbers, where the points rise. `rising` is what `rise` told of the points, once for all half-edges, and no
// choice of the caller's: of a closure in its place each contract would have to say what it was told.
pub fn starts_first(
    points: &[i64],
    origins: &[u16],
    n: usize,
    rising: bool,
    h: usize,
    k: usize,
) -> bool
    requires fact_1 { RisesIf rising points.now n }
    requires fact_2 { Starts points.now origins.now h × Starts points.now origins.now k }
    requires fact_3 { (origin_at origins.now h < n) × (origin_at origins.now k < n) }
    ensures { result ≡ before (start_at points.now origins.now h) (start_at points.now origins.now k) }
{
    if rising {
        origins[h] < origins[k]
    } else {
        before(start(points, origins, h), start(points, origins, k))
    }
}
