// The vertices of the overlay in point order, by either of two ways: "Add a second way to collect the vertices .. Keep the plain way" (02, Ask 10).
ghost use Rattle.std.specs.Prelude.{◌*◌, ◌≤◌, length};
ghost use Rattle.paper.specs.Limits.{maps};
ghost use Rattle.graph.specs.Flat.{point_width};
ghost use Rattle.overlay_cut.specs.Cuts.{start_of};
ghost use Rattle.overlay_cut.specs.Rooms.{vertex_rows};
ghost use Rattle.overlay_sweep.specs.Threading.{Unthreaded};
ghost use Rattle.overlay_maps.specs.Held.{held_maps, Held};
ghost use Rattle.overlay_maps.specs.Given.{the_layers};
ghost use Rattle.overlay_graph.specs.Collected.{CollectedOf, ThreadedOf};

use limits::{MAPS, VERTEX_ROWS};
use overlay_cut::{collect, order};
use overlay_maps::Layers;
use overlay_sweep::{Swept, sweep};

// The plain way tests each edge with all edges of the maps before its own, and puts the points in order at the end. The other is "a line that passes over the plane
// from the smallest point upward" (02, Ask 10).
// An enum and no closure: README.md and docs/ name the two ways, and programs ask for one by its name.
#[derive(Clone, Copy)]
pub enum Way {
    Plain,
    Swept,
}

// The vertices of the overlay of the maps in these tables, the plain way, in a table with room for so many rows: how many there are, or `room` where there are as many or more.
pub fn collect_maps(layers: Layers, points: &mut [i64], room: usize) -> usize
    requires fact_1 { Held (the_layers layers) }
    requires fact_2 { point_width * room ≤ length points.old }
    ensures { CollectedOf (held_maps (the_layers layers.entry)) room points.new result }
{
    let Layers {
        vertices,
        edges,
        corners,
        carriers,
        ..
    } = layers;
    let c = vertices[MAPS];
    let n = collect(corners, c, carriers, edges, points, room);
    if room <= n {
        return n;
    }
    order(points, n);
    n
}

// The same by the line, which meets them in order, and remembers which are on each edge, while there are fewer nodes than `room`.
fn sweep_maps(
    layers: Layers,
    points: &mut [i64],
    last: &mut [u16],
    nodes: &mut [u16],
    room: usize,
) -> Swept
    requires fact_1 { Held (the_layers layers) }
    requires fact_2 { point_width * vertex_rows ≤ length points.old }
    requires fact_3 { Unthreaded (start_of layers.edges.now maps) room last.old nodes.old }
    ensures { ThreadedOf (the_layers layers.entry) room points.new result.stops last.new nodes.new result.nodes }
{
    let Layers {
        vertices,
        edges,
        corners,
        carriers,
        ..
    } = layers;
    let c = vertices[MAPS];
    sweep(corners, c, carriers, edges, points, last, nodes, room)
}

// The same by the way that is asked for. The plain way remembers nothing.
pub fn vertices_by(
    way: Way,
    layers: Layers,
    points: &mut [i64],
    last: &mut [u16],
    nodes: &mut [u16],
    room: usize,
) -> Swept
    requires fact_1 { Held (the_layers layers) }
    requires fact_2 { point_width * vertex_rows ≤ length points.old }
    requires fact_3 { Unthreaded (start_of layers.edges.now maps) room last.old nodes.old }
    ensures { ThreadedOf (the_layers layers.entry) room points.new result.stops last.new nodes.new result.nodes }
{
    match way {
        Way::Plain => {
            let n = collect_maps(layers, points, VERTEX_ROWS);
            Swept {
                stops: n,
                nodes: room,
            }
        }
        Way::Swept => sweep_maps(layers, points, last, nodes, room),
    }
}
