// A map's edges laid for looks, in the order of their lower ends: of each a row, its lower end and the way from there to its upper end, and beside it the label on its east side.
ghost use Rattle.std.specs.Prelude.{◌≡◌, ◌*◌, ◌≤◌, length, get_or};
ghost use Rattle.seq.specs.Seq.{filled, laid};
ghost use Rattle.paper.specs.Limits.{absent};
ghost use Rattle.graph.specs.Flat.{carrier_at, Carriers, Numbers};
ghost use Rattle.graph.specs.Look.{east_at};
ghost use Rattle.looks.specs.Ordering.{the_edge_in, EachEnds};
ghost use Rattle.looks.specs.Rails.{seg_row};

use graph::{carrier_at, east_side, store_carrier};

// The rows of e edges.
fn lay_rows(carriers: &[i16], order: &[u16], e: usize, rails: &mut [i16])
    requires fact_1 { Carriers carriers.now e }
    requires fact_2 { Numbers order.now e e }
    requires fact_3 { 4 * e ≤ length rails.old }
    ensures { rails.new ≡ laid e (λ i. seg_row (carrier_at carriers.now (the_edge_in order.now i))) rails.old }
{
    for i in 0..e {
        let s = carrier_at(carriers, order[i] as usize);
        store_carrier(rails, i, s);
    }
}

// The labels on their east sides, of labels by half-edge.
fn lay_easts(
    points: &[i64],
    origins: &[u16],
    labels: &[u16],
    order: &[u16],
    e: usize,
    easts: &mut [u16],
)
    requires fact_1 { (2 * e ≤ absent) × (2 * e ≤ length labels.now) × EachEnds points.now origins.now e }
    requires fact_2 { Numbers order.now e e }
    requires fact_3 { e ≤ length easts.old }
    ensures { easts.new ≡ filled e (λ i. get_or labels.now (east_at points.now origins.now (the_edge_in order.now i)) 0) easts.old }
{
    for i in 0..e {
        let h = east_side(points, origins, order[i] as usize);
        easts[i] = labels[h];
    }
}

// Both, of e edges.
pub fn lay_rails(
    points: &[i64],
    origins: &[u16],
    carriers: &[i16],
    labels: &[u16],
    order: &[u16],
    e: usize,
    rails: &mut [i16],
    easts: &mut [u16],
)
    requires { ((2 * e ≤ absent) × (2 * e ≤ length labels.now) × EachEnds points.now origins.now e) × ((Carriers carriers.now e) × ((Numbers order.now e e) × ((4 * e ≤ length rails.old) × (e ≤ length easts.old)))) }
    ensures rows { rails.new ≡ laid e (λ i. seg_row (carrier_at carriers.now (the_edge_in order.now i))) rails.old }
    ensures labels { easts.new ≡ filled e (λ i. get_or labels.now (east_at points.now origins.now (the_edge_in order.now i)) 0) easts.old }
{
    lay_rows(carriers, order, e, rails);
    lay_easts(points, origins, labels, order, e, easts);
}
