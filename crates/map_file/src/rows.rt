// The vertices and the edges that stand in a file's bytes from a place on, each read once, in the order in which they stand, into flat tables. A
// table may be longer than needed: the other cells stay as they were.
ghost use Rattle.std.specs.Prelude.{◌≡◌, ◌+◌, ◌*◌, ◌≤◌, ◌<◌, ◌^◌, length};
ghost use Rattle.seq.specs.Seq.{filled, laid};
ghost use Rattle.map_file.specs.Places.{point_from, origin_from, label_from};

use crate::bytes::{i16_at, u16_at};
use limits::{MAP_EDGE_SIZE, MAP_VERTEX_SIZE};
use seq::store;

// The n vertices, each a row of X, Y, D = 1 and a spare cell; the place behind them.
pub fn points_at(file: &[u8], at: usize, n: u16, points: &mut [i64]) -> usize
    requires { (at + 4 * n < 2 ^ 64) × (4 * n ≤ length points.old) }
    ensures { (result ≡ at + 4 * n) × (points.new ≡ laid n (point_from file.now at) points.old) }
{
    let mut place = at;
    for v in 0..n {
        let x = i16_at(file, place);
        let y = i16_at(file, place + 2);
        store(points, v as usize, [x, y, 1, 0]);
        place += MAP_VERTEX_SIZE;
    }
    place
}

// The n edges: of each half-edge the vertex that it starts from, and its label; the place behind them.
pub fn edges_at(file: &[u8], at: usize, n: u16, origins: &mut [u16], labels: &mut [u16]) -> usize
    requires { (at + 8 * n < 2 ^ 64) × (2 * n ≤ length origins.old) × (2 * n ≤ length labels.old) }
    ensures { (result ≡ at + 8 * n) × (origins.new ≡ filled (2 * n) (origin_from file.now at) origins.old) × (labels.new ≡ filled (2 * n) (label_from file.now at) labels.old) }
{
    let mut place = at;
    for k in 0..n {
        let h = 2 * k as usize;
        origins[h] = u16_at(file, place);
        origins[h + 1] = u16_at(file, place + 2);
        labels[h] = u16_at(file, place + 4);
        labels[h + 1] = u16_at(file, place + 6);
        place += MAP_EDGE_SIZE;
    }
    place
}
