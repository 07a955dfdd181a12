// The overlay's vertices and the edges of all maps, as the tables have them.
ghost use Rattle.std.specs.Prelude.{◌≤◌};
ghost use Rattle.graph.specs.Flat.{Points};
ghost use Rattle.overlay_cut.specs.Rooms.{vertex_rows};
ghost use Rattle.overlay_cut.specs.Between.{InRowOrder};
ghost use Rattle.overlay_cut.specs.Cuts.{Starts};

// The n vertices in point order; the carriers, and where those of each map start.
#[derive(Clone, Copy)]
pub struct Chart<'a> {
    pub points: &'a [i64],
    pub n: usize,
    pub carriers: &'a [i16],
    pub starts: &'a [usize],
    ghost near: { Points points.now n },
    ghost few: { n ≤ vertex_rows },
    ghost ordered: { InRowOrder points.now n },
    ghost starting: { Starts starts.now carriers.now },
}
