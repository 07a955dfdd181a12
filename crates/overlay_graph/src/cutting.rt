// Vertices and edges: "Vertices stand in point order", edges are "the pieces of input edges between neighbouring overlay vertices on them".
ghost use Rattle.std.specs.Prelude.{◌+◌, ◌*◌, ◌≤◌, length};
ghost use Rattle.graph.specs.Flat.{point_width};
ghost use Rattle.graph.specs.Small.{small_vertices, small_edges};
ghost use Rattle.overlay_cut.specs.Rooms.{vertex_rows, edge_rows};
ghost use Rattle.overlay_cut.specs.PieceRows.{piece_width};
ghost use Rattle.overlay_maps.specs.Held.{held_maps, Held};
ghost use Rattle.overlay_maps.specs.Given.{the_layers};
ghost use Rattle.overlay_graph.specs.Cut.{cut_by, CutOf};

use crate::collecting::{Way, collect_maps, vertices_by};
use limits::{
    EDGE_ROWS, MAP_EDGES, MAPS, PIECE_CELLS, SMALL_EDGE_ROWS, SMALL_VERTEX_ROWS, VERTEX_ROWS,
};
use overlay_cut::pieces;
use overlay_maps::Layers;

// The edges of all maps, at most.
const LAYER_EDGES: usize = MAPS * MAP_EDGES as usize;
// The nodes of the threads of the vertices on them, at most: as many as the table of pieces has room for, which they stand in until the pieces are laid there.
const NODES: usize = PIECE_CELLS / 2;

// The vertices and edges of an overlay: how many there are, and the tables that have their rows.
#[derive(Clone, Copy)]
pub struct Cut<'a> {
    pub vertices: usize,
    pub points: &'a [i64],
    pub edges: usize,
    pub pieces: &'a [u16],
}

// How many vertices and edges there are.
#[derive(Clone, Copy)]
pub struct CutCounts {
    pub vertices: usize,
    pub edges: usize,
}

// The vertices and edges of the overlay of the maps in these tables, in tables with one row more than the overlay may have, so that a count says whether there are
// more; where there are too many vertices, no edges. By either way they are the same.
pub fn cut_maps(way: Way, layers: Layers, points: &mut [i64], rows: &mut [u16]) -> CutCounts
    requires fact_1 { Held (the_layers layers) }
    requires fact_2 { (point_width * vertex_rows ≤ length points.old) × (piece_width * edge_rows ≤ length rows.old) }
    ensures { CutOf (held_maps (the_layers layers.entry)) (cut_by result.vertices points.new result.edges rows.new) }
{
    let mut last = [0u16; LAYER_EDGES];
    let swept = vertices_by(way, layers, points, &mut last, rows, NODES);
    let n = swept.stops;
    if VERTEX_ROWS <= n {
        return CutCounts {
            vertices: n,
            edges: 0,
        };
    }
    let e = pieces(
        points,
        n,
        layers.carriers,
        layers.edges,
        &last,
        NODES,
        swept.nodes,
        EDGE_ROWS,
        rows,
    );
    CutCounts {
        vertices: n,
        edges: e,
    }
}

// The same in small tables, the plain way: where there are no more vertices and edges than these have room for, they are those of the overlay. (More: nothing is said, and the caller cuts in full tables.)
pub fn cut_few(layers: Layers, points: &mut [i64], rows: &mut [u16]) -> CutCounts
    requires fact_1 { Held (the_layers layers) }
    requires fact_2 { (point_width * (small_vertices + 1) ≤ length points.old) × (piece_width * (small_edges + 1) ≤ length rows.old) }
    ensures { result.vertices ≤ small_vertices → result.edges ≤ small_edges → CutOf (held_maps (the_layers layers.entry)) (cut_by result.vertices points.new result.edges rows.new) }
{
    let n = collect_maps(layers, points, SMALL_VERTEX_ROWS);
    if SMALL_VERTEX_ROWS <= n {
        return CutCounts {
            vertices: n,
            edges: 0,
        };
    }
    // No threads: of no nodes there are none, and `origins` is only a table with a cell for each edge, of which nothing is read.
    let e = pieces(
        points,
        n,
        layers.carriers,
        layers.edges,
        layers.origins,
        0,
        0,
        SMALL_EDGE_ROWS,
        rows,
    );
    CutCounts {
        vertices: n,
        edges: e,
    }
}
