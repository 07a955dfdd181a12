// The corners put into the queue.
ghost use Rattle.std.specs.Prelude.{◌*◌, ◌≤◌, length};
ghost use Rattle.graph.specs.Flat.{Points};
ghost use Rattle.overlay_cut.specs.Rooms.{vertex_rows};
ghost use Rattle.overlay_cut.specs.Points.{points_of};
ghost use Rattle.overlay_sweep.specs.Ahead.{Queued};

use crate::queue::corner_in;
use graph::point_at;

// The first c rows, the last first, each point once. Answers how many there are.
pub fn corners_in(rows: &[i64], c: usize, points: &mut [i64]) -> usize
    requires fact_1 { Points rows.now c }
    requires fact_2 { 4 * vertex_rows ≤ length points.old }
    ensures { Queued (points_of rows.now c) points.old 0 points.new result }
{
    let mut n = 0;
    for v in (0..c).rev() {
        n = corner_in(points, n, point_at(rows, v));
    }
    n
}
