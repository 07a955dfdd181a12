// The overlay file of what came out of laying maps over each other.
ghost use Rattle.std.specs.Prelude.{◌≡◌, length};
ghost use Rattle.tables.specs.Values.{outcome_of, tables_by};
ghost use Rattle.ovfile_write.specs.Answers.{written_of};
ghost use Rattle.lists.specs.Filed.{filed};

use map_file::Refusal;
use tables::Answer;

// Into a buffer of any length: its length, or what is refused. The tables stay parameters: they are arrays of the caller, and a struct of them would be moved.
pub fn file_of(
    answer: Answer,
    vertices: &[i64],
    halves: &[u16],
    sources: &[u32],
    faces: &[u16],
    buffer: &mut [u8],
) -> Result<usize, Refusal>
    ensures { written_of result buffer.new ≡ filed (length buffer.old) (outcome_of answer (tables_by vertices.now halves.now sources.now faces.now)) }
{
    match answer {
        Ok(c) => ovfile_write::write(c, vertices, halves, sources, faces, buffer),
        Err(r) => {
            buffer.fill(0);
            Err(r)
        }
    }
}
