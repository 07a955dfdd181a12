// From files to the lent tables: the maps laid one after the other in tables of their own, which are small where the maps are, and what becomes of their overlay from there.
ghost use Rattle.std.specs.Prelude.{◌≡◌, [], ◌∷◌, ◌+◌, ◌^◌, ◌<◌};
ghost use Rattle.paper.specs.Lent.{lengths_of};
ghost use Rattle.tables.specs.Values.{tables_by, outcome_of};
ghost use Rattle.overlay_fill.specs.Files.{few_rows, RoomOf};

use crate::laying::refuse;
use crate::stages::{Layout, from_layers};
use limits::{
    LAYER_CARRIER_CELLS, LAYER_HALVES, LAYER_POINT_CELLS, LAYER_STARTS, POINT_WIDTH,
    SMALL_CARRIER_CELLS, SMALL_EDGES, SMALL_HALVES, SMALL_VERTICES,
};
use map_file::{edge_count, vertex_count};
use overlay_graph::Way;
use overlay_maps::{Layers, lay_maps};
use tables::Answer;

// Whether the maps of three files have room in small tables, by the counts in their headers.
fn few_rows(zones: &[u8], blocks: &[u8], bed: &[u8]) -> bool
    ensures { result ≡ few_rows (zones.now ∷ blocks.now ∷ bed.now ∷ []) }
{
    let v = vertex_count(zones) as usize
        + vertex_count(blocks) as usize
        + vertex_count(bed) as usize;
    let e = edge_count(zones) as usize + edge_count(blocks) as usize + edge_count(bed) as usize;
    v <= SMALL_VERTICES && e <= SMALL_EDGES
}

// The corners of a small sheet.
const SMALL_CORNER_CELLS: usize = POINT_WIDTH * SMALL_VERTICES;

// The maps of three files of any bytes, laid in tables of P cells of corners, H half-edges and C cells of carriers, which have room for them; and what becomes of their overlay.
fn from_files_in<L: Layout, const P: usize, const H: usize, const C: usize>(
    way: Option<Way>,
    zones: &[u8],
    blocks: &[u8],
    bed: &[u8],
    vertices: &mut [i64],
    halves: &mut [u16],
    sources: &mut [u32],
    faces: &mut [u16],
) -> Answer
    requires fact_1 { RoomOf (zones.now ∷ blocks.now ∷ bed.now ∷ []) P H C }
    requires fact_2 { P + H + C < 2 ^ 32 }
    ensures { outcome_of result (tables_by vertices.new halves.new sources.new faces.new) ≡ L.promised (zones.now ∷ blocks.now ∷ bed.now ∷ []) (lengths_of (tables_by vertices.old halves.old sources.old faces.old)) }
{
    let mut vertex_starts = [0usize; LAYER_STARTS];
    let mut edge_starts = [0usize; LAYER_STARTS];
    let mut corners = [0i64; P];
    let mut origins = [0u16; H];
    let mut carriers = [0i16; C];
    let mut labels = [0u16; H];
    let c = lay_maps(
        zones,
        blocks,
        bed,
        &mut vertex_starts,
        &mut edge_starts,
        &mut corners,
        &mut origins,
        &mut carriers,
        &mut labels,
    );
    match c {
        Err(r) => refuse(r, vertices, halves, sources, faces),
        Ok(()) => {
            let layers = Layers {
                vertices: &vertex_starts,
                edges: &edge_starts,
                corners: &corners,
                origins: &origins,
                carriers: &carriers,
                labels: &labels,
            };
            from_layers::<L>(way, layers, vertices, halves, sources, faces)
        }
    }
}

// The same, the maps laid in small tables where the headers count few rows.
// The four lent tables stay parameters: stages.rt says why.
pub fn from_files<L: Layout>(
    way: Option<Way>,
    zones: &[u8],
    blocks: &[u8],
    bed: &[u8],
    vertices: &mut [i64],
    halves: &mut [u16],
    sources: &mut [u32],
    faces: &mut [u16],
) -> Answer
    ensures { outcome_of result (tables_by vertices.new halves.new sources.new faces.new) ≡ L.promised (zones.now ∷ blocks.now ∷ bed.now ∷ []) (lengths_of (tables_by vertices.old halves.old sources.old faces.old)) }
{
    if few_rows(zones, blocks, bed) {
        from_files_in::<L, SMALL_CORNER_CELLS, SMALL_HALVES, SMALL_CARRIER_CELLS>(
            way, zones, blocks, bed, vertices, halves, sources, faces,
        )
    } else {
        from_files_in::<L, LAYER_POINT_CELLS, LAYER_HALVES, LAYER_CARRIER_CELLS>(
            way, zones, blocks, bed, vertices, halves, sources, faces,
        )
    }
}
