// Cells melted together (02, Ask 12): the overlay of three map files without the edges that have the same labels on both sides.
#![tactic(auto)]

mod left; // what is left of an overlay, laid out

ghost use Rattle.std.specs.Prelude.{[], ◌∷◌};
ghost use Rattle.paper.specs.Lent.{lengths_of};
ghost use Rattle.tables.specs.Values.{tables_by};
ghost use Rattle.tables.specs.Promise.{PromisedMelted};
ghost use Rattle.melt.specs.Melted.{melted_in};
ghost use Rattle.melt.specs.Laws.Judged.{lent_melted_of, room_refused, melted-refused, melted-passes};

use crate::left::melt_cut;
use overlay_fill::{Layout, from_files};
use overlay_graph::Cut;
use overlay_maps::Layers;
use tables::Answer;

// The overlay without the edges that separate nothing.
struct Melted;

impl Layout for Melted {
    ghost laid = { melted_in };

    ghost promised = { lent_melted_of };

    fn lay(
        layers: Layers,
        cut: Cut,
        vertices: &mut [i64],
        halves: &mut [u16],
        sources: &mut [u32],
        faces: &mut [u16],
    ) -> Answer {
        melt_cut(layers, cut, vertices, halves, sources, faces)
    }

    ghost refuses = { room_refused };

    ghost refuses_files = { melted-refused };

    ghost passes_files = { melted-passes };
}

// The melted tables of three files of any bytes in the lent tables: the three counts, or a refusal. "Refusals: the overlay's, 11 included, which is judged on the
// overlay before melting"; "Ask 12 compares triples" (02, Ask 13).
pub fn melt(
    zones: &[u8],
    blocks: &[u8],
    bed: &[u8],
    vertices: &mut [i64],
    halves: &mut [u16],
    sources: &mut [u32],
    faces: &mut [u16],
) -> Answer
    ensures { PromisedMelted (lengths_of (tables_by vertices.old halves.old sources.old faces.old)) (zones.now ∷ blocks.now ∷ bed.now ∷ []) result (tables_by vertices.new halves.new sources.new faces.new) }
{
    from_files::<Melted>(None, zones, blocks, bed, vertices, halves, sources, faces)
}
