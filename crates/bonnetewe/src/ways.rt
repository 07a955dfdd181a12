// The overlay for C with the way to collect the vertices chosen: "For all files both give the same answer and the same tables, refusals included" (02, Ask 10).
ghost use Rattle.paper.specs.Lent.{lengths_of};
ghost use Rattle.paper.specs.Overlay.{overlay};
ghost use Rattle.tables.specs.Values.{tables_by};
ghost use Rattle.bonnetewe.specs.Told.{Told};

use crate::answer::of_answer;
use overlay_graph::Way;

// The way by its number: 0 the plain one, any other the sweep. No promise speaks of it.
fn way_by(number: u16) -> Way {
    if number == 0 {
        return Way::Plain;
    }
    Way::Swept
}

// The overlay of three map files of any bytes in the lent tables, by either way: the promise is that of `bonnetewe_overlay`, word for word.
#[unsafe(no_mangle)]
pub extern "C" fn bonnetewe_overlay_by(
    way: u16,
    zones: &[u8],
    blocks: &[u8],
    bed: &[u8],
    vertices: &mut [i64],
    halves: &mut [u16],
    sources: &mut [u32],
    faces: &mut [u16],
) -> u64
    ensures { Told (overlay (lengths_of (tables_by vertices.old halves.old sources.old faces.old)) zones.now blocks.now bed.now) (tables_by vertices.new halves.new sources.new faces.new) result }
{
    let answer = overlay::overlay_by(
        way_by(way),
        zones,
        blocks,
        bed,
        vertices,
        halves,
        sources,
        faces,
    );
    of_answer(answer)
}
