// The overlay of three map files: "Two map files go in", and "Bed type comes as a third map" (02, Ask 13). "Out come three tables (vertices, half-edges, faces)".
#![tactic(auto)]

ghost use Rattle.std.specs.Prelude.{[], ◌∷◌};
ghost use Rattle.paper.specs.Lent.{lengths_of};
ghost use Rattle.tables.specs.Values.{tables_by};
ghost use Rattle.tables.specs.Promise.{Promised};
ghost use Rattle.overlay_fill.specs.Judged.{overlaid, overlaid-refuses};
ghost use Rattle.overlay.specs.Whole.{lent_of, whole-refused, whole-passes};

use overlay_fill::{Layout, from_cut, from_files};
use overlay_graph::{Cut, Way};
use overlay_maps::Layers;
use tables::Answer;

// The overlay as it is.
struct Whole;

impl Layout for Whole {
    ghost laid = { overlaid };

    ghost promised = { lent_of };

    fn lay(
        layers: Layers,
        cut: Cut,
        vertices: &mut [i64],
        halves: &mut [u16],
        sources: &mut [u32],
        faces: &mut [u16],
    ) -> Answer {
        from_cut(layers, cut, vertices, halves, sources, faces)
    }

    ghost refuses = { overlaid-refuses };

    ghost refuses_files = { whole-refused };

    ghost passes_files = { whole-passes };
}

// The overlay of three files of any bytes in the lent tables, the vertices collected by the way that is asked for: the three counts, or a refusal. "For all files both
// give the same answer and the same tables, refusals included" (02, Ask 10): the promise does not speak of the way.
pub fn overlay_by(
    way: Way,
    zones: &[u8],
    blocks: &[u8],
    bed: &[u8],
    vertices: &mut [i64],
    halves: &mut [u16],
    sources: &mut [u32],
    faces: &mut [u16],
) -> Answer
    ensures { Promised (lengths_of (tables_by vertices.old halves.old sources.old faces.old)) (zones.now ∷ blocks.now ∷ bed.now ∷ []) result (tables_by vertices.new halves.new sources.new faces.new) }
{
    from_files::<Whole>(
        Some(way),
        zones,
        blocks,
        bed,
        vertices,
        halves,
        sources,
        faces,
    )
}

// The overlay of three files of any bytes in the lent tables: the three counts, or a refusal. "The two-map overlay is the one with an empty third map" (02, Ask 13).
// The vertices are collected by the way that is faster on full sheets, and of a few edges by the plain one, in small tables.
pub fn overlay(
    zones: &[u8],
    blocks: &[u8],
    bed: &[u8],
    vertices: &mut [i64],
    halves: &mut [u16],
    sources: &mut [u32],
    faces: &mut [u16],
) -> Answer
    ensures { Promised (lengths_of (tables_by vertices.old halves.old sources.old faces.old)) (zones.now ∷ blocks.now ∷ bed.now ∷ []) result (tables_by vertices.new halves.new sources.new faces.new) }
{
    from_files::<Whole>(None, zones, blocks, bed, vertices, halves, sources, faces)
}
