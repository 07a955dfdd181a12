// The overlay file's reader: "1 (under 11 bytes or wrong mark), 2 (version), 3 (a count over its number above), 4 (length), 21 or 11 (places 1 to 3), in that
// order". It judges first, with no lent table in sight, and then fills the tables or wipes them.
ghost use Rattle.std.specs.Prelude.{◌≡◌, not, ◌∷◌, length, IfOk};
ghost use Rattle.paper.specs.Limits.{maps};
ghost use Rattle.paper.specs.Bytes.{u16};
ghost use Rattle.paper.specs.Refusal.{first_at, first_of};
ghost use Rattle.paper.specs.Lent.{room_in, room_faults, padded_tables};
ghost use Rattle.paper.specs.Ovfile.{layouts, sound_edge, layout_of};
ghost use Rattle.paper.specs.Reader.{counts_in, tables_in, read_fault, read};
ghost use Rattle.map_file.specs.Verdict.{verdict};
ghost use Rattle.tables.specs.Values.{lengths_by, tables_by, outcome_of};
ghost use Rattle.ovfile.specs.Values.{layout_from};
ghost use Rattle.ovfile_read.specs.Filled.{Roomy};

use crate::fill::{fill_faces, fill_halves, fill_sources, fill_vertices};
use crate::head::head;
use crate::sound::unsound;
use crate::stored::Stored;
use map_file::{Check, Refusal, given};
use tables::{Answer, room_in, wipe_all};

// 21 and 11, of a file whose form is right.
fn body(stored: &Stored, vertices: usize, halves: usize, sources: usize, faces: usize) -> Check
    ensures { verdict result ≡ first_of (first_at 21 (λ k. not (sound_edge maps (counts_in stored.now.file.now) (tables_in maps (layout_from stored.now.layout) stored.now.file.now) k)) (counts_in stored.now.file.now).edges ∷ room_faults (room_in maps (lengths_by vertices halves sources faces)) (counts_in stored.now.file.now)) }
{
    let c = stored.counts;
    let room = room_in(vertices, halves, sources, faces);
    let k = unsound(stored);
    given(21, k, k < c.edges)?;
    given(11, 1, room.vertices < c.vertices)?;
    given(11, 2, room.edges < c.edges)?;
    given(11, 3, room.faces < c.faces)
}

// The file, or what it is refused for, by tables of these lengths.
pub fn judge(
    file: &[u8],
    vertices: usize,
    halves: usize,
    sources: usize,
    faces: usize,
) -> Result<Stored<'_>, Refusal>
    ensures told { verdict result ≡ read_fault maps (length layouts) (layout_of layouts (u16 file.now 3)) (lengths_by vertices halves sources faces) file.now (tables_in maps (layout_of layouts (u16 file.now 3)) file.now) }
    ensures same { IfOk result (λ s. s.file ≡ file.entry) }
{
    let stored = head(file)?;
    body(&stored, vertices, halves, sources, faces)?;
    Ok(stored)
}

// "Done: places past the counts are zero"
fn fill(
    stored: &Stored,
    vertices: &mut [i64],
    halves: &mut [u16],
    sources: &mut [u32],
    faces: &mut [u16],
)
    requires { Roomy (counts_in stored.now.file.now) (lengths_by (length vertices.old) (length halves.old) (length sources.old) (length faces.old)) }
    ensures { tables_by vertices.new halves.new sources.new faces.new ≡ padded_tables (lengths_by (length vertices.old) (length halves.old) (length sources.old) (length faces.old)) (tables_in maps (layout_from stored.now.layout) stored.now.file.now) }
{
    fill_vertices(stored, vertices);
    fill_halves(stored, halves);
    fill_sources(stored, sources);
    fill_faces(stored, faces);
}

// Reads an overlay file into the lent tables.
pub fn read(
    file: &[u8],
    vertices: &mut [i64],
    halves: &mut [u16],
    sources: &mut [u32],
    faces: &mut [u16],
) -> Answer
    ensures { outcome_of result (tables_by vertices.new halves.new sources.new faces.new) ≡ read (lengths_by (length vertices.old) (length halves.old) (length sources.old) (length faces.old)) file.now }
{
    match judge(
        file,
        vertices.len(),
        halves.len(),
        sources.len(),
        faces.len(),
    ) {
        Ok(stored) => {
            fill(&stored, vertices, halves, sources, faces);
            Ok(stored.counts)
        }
        Err(r) => {
            wipe_all(vertices, halves, sources, faces);
            Err(r)
        }
    }
}
